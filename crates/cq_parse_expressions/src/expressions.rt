//! The rules of expressions.

ghost use Rattle.std.specs.Prelude.{◌≡◌, ◌+◌, ℕ, [], ◌∷◌, is_some, IfOk, IfErr};
ghost use Rattle.cq_grammar.specs.declared.error.Refusal.TheVariants.{Memory};
ghost use Rattle.cq_grammar.specs.declared.kind.Kind.TheVariants as k;
ghost use Rattle.cq_grammar.specs.Grammar.{Deeper, Tree, expr};
ghost use Rattle.cq_grammar.specs.declared.rule.Rule.TheVariants.{Or as or_};
ghost use Rattle.cq_grammar.specs.Words.{column_names};
ghost use Rattle.cq_grammar.specs.Read as read;
ghost use Rattle.cq_grammar.specs.Grammar as grammar;
ghost use Rattle.cq_grammar.specs.Read.{Reader};
ghost use Rattle.cq_grammar.specs.Nodes as node;
ghost use Rattle.cq_grammar.specs.Descent as descent;
ghost use Rattle.cq_parse_steps.specs.Reads.{Reads};
ghost use Rattle.cq_parse_calls.specs.Nests.{Nests};

use crate::digits::digits;
use cq_grammar::{
    Added, Aggregate, Arm, Chained, Count, Expr, Kind, Multiplied, Name, NullTest, Refusal, Rule,
    Select, Test,
};
use cq_parse_calls::{
    Grammar, Nested, Phrase, add_operator, aggregate_function, comparison_operator, first_place,
    list_of, many_of, multiply_operator, several_of,
};
use cq_parse_steps::{
    ADD_SIGNS, AGGREGATE_WORDS, COLUMN_NAMES, COMPARISON_SIGNS, LITERALS, MULTIPLY_SIGNS, NAMES,
    Parser, TESTED_WORDS, many,
};
use cq_value::{Boxed, Items};

/// The expression in a box of its own. The only error is want of memory.
fn boxed(parser: &Parser<'_>, tree: Expr) -> Result<Boxed<Expr>, Refusal>
    ensures ok { IfOk result (λ b. b ≡ tree) }
    ensures err { IfErr result (λ e. e ≡ Memory) }
{
    Ok(Boxed::new(parser.alloc(), tree)?)
}

/// A number, a text between quotes, or NULL.
#[tactic(auto, unfolding(cq_grammar::specs::Descent::literal))]
fn literal(parser: &mut Parser<'_>) -> Result<Expr, Refusal>
    ensures { (lower : ℕ → (d : Deeper) → Reader (Tree d)) → Reads (descent.literal lower parser.old) result parser.new }
{
    if parser.sees(&[Kind::Number]) {
        let Count { value, at } = parser.a_number()?;
        Ok(Expr::Number { value, at })
    } else if parser.sees(&[Kind::Quoted]) {
        let Name { text, at } = parser.a_quoted()?;
        Ok(Expr::Quoted { text, at })
    } else {
        let at = parser.the(Kind::Null)?;
        Ok(Expr::Null { at })
    }
}

/// The column behind a dot, if there is one.
fn behind_dot(parser: &mut Parser<'_>) -> Result<Option<Name>, Refusal>
    ensures { Reads (read.optional (read.sees (k.Dot ∷ [])) (read.behind (descent.the k.Dot) (descent.named column_names)) parser.old) result parser.new }
{
    if !parser.sees(&[Kind::Dot]) {
        return Ok(None);
    }
    parser.the(Kind::Dot)?;
    let column = parser.named(COLUMN_NAMES)?;
    Ok(Some(column))
}

/// A column, with its relation before a dot or without.
#[tactic(auto, unfolding(cq_grammar::specs::Descent::column))]
fn column(parser: &mut Parser<'_>) -> Result<Expr, Refusal>
    ensures { (lower : ℕ → (d : Deeper) → Reader (Tree d)) → Reads (descent.column lower parser.old) result parser.new }
{
    let name = parser.named(NAMES)?;
    let column = behind_dot(parser)?;
    match column {
        None => Ok(Expr::Column { column: name }),
        Some(column) => Ok(Expr::ColumnOf {
            relation: name,
            column,
        }),
    }
}

/// IS NULL or IS NOT NULL.
#[tactic(auto, unfolding(cq_grammar::specs::Descent::null_test))]
fn null_test(parser: &mut Parser<'_>) -> Result<NullTest, Refusal>
    ensures { (lower : ℕ → (d : Deeper) → Reader (Tree d)) → Reads (descent.null_test lower parser.old) result parser.new }
{
    let at = parser.the(Kind::Is)?;
    let not = parser.optional_the(Kind::Not)?;
    parser.the(Kind::Null)?;
    Ok(NullTest {
        negated: not.is_some(),
        at,
    })
}

/// An expression inside a bracket or the like, in a box of its own.
fn inside<N: Nested>(nested: &N, parser: &mut Parser<'_>) -> Result<Boxed<Expr>, Refusal>
    requires { N.callable nested.now }
    ensures { Reads (descent.below (N.left nested.now) 1 (expr or_) parser.old) result parser.new }
{
    let tree = nested.lower(parser, 1, Rule::Or)?;
    boxed(parser, tree)
}

#[tactic(auto, unfolding(cq_grammar::specs::Descent::group))]
fn group<N: Nested>(nested: &N, parser: &mut Parser<'_>) -> Result<Expr, Refusal>
    requires { N.callable nested.now }
    ensures { Reads (descent.group (descent.below (N.left nested.now)) parser.old) result parser.new }
{
    let at = parser.the(Kind::Open)?;
    let inner = inside(nested, parser)?;
    parser.the(Kind::Close)?;
    Ok(Expr::Group { inner, at })
}

/// WHEN and THEN.
#[derive(Drop)]
struct CaseArm<'a, N> {
    nested: &'a N,
}

impl<'a, N: Nested> Phrase for CaseArm<'a, N> {
    type Tree = Arm;

    ghost reader = { λ p _. descent.arm (descent.below (N.left p.nested.now)) };

    ghost callable = { λ p. N.callable p.nested.now };

    #[tactic(auto, unfolding(cq_grammar::specs::Descent::arm))]
    fn phrase(&self, parser: &mut Parser<'_>, _before: usize) -> Result<Arm, Refusal> {
        parser.the(Kind::When)?;
        let condition = self.nested.lower(parser, 1, Rule::Or)?;
        parser.the(Kind::Then)?;
        let result = self.nested.lower(parser, 1, Rule::Or)?;
        Ok(Arm { condition, result })
    }
}

fn arms<N: Nested>(nested: &N, parser: &mut Parser<'_>) -> Result<Items<Arm>, Refusal>
    requires { N.callable nested.now }
    ensures { Reads (descent.arms (descent.below (N.left nested.now)) parser.old) result parser.new }
{
    several_of(&CaseArm { nested }, parser, &[Kind::When])
}

#[tactic(auto, unfolding(cq_grammar::specs::Descent::otherwise))]
fn otherwise<N: Nested>(nested: &N, parser: &mut Parser<'_>) -> Result<Option<Boxed<Expr>>, Refusal>
    requires { N.callable nested.now }
    ensures { Reads (descent.otherwise (descent.below (N.left nested.now)) parser.old) result parser.new }
{
    if !parser.sees(&[Kind::Else]) {
        return Ok(None);
    }
    parser.the(Kind::Else)?;
    let otherwise = inside(nested, parser)?;
    Ok(Some(otherwise))
}

#[tactic(auto, unfolding(cq_grammar::specs::Descent::case))]
fn case<N: Nested>(nested: &N, parser: &mut Parser<'_>) -> Result<Expr, Refusal>
    requires { N.callable nested.now }
    ensures { Reads (descent.case (descent.below (N.left nested.now)) parser.old) result parser.new }
{
    let at = parser.the(Kind::Case)?;
    let arms = arms(nested, parser)?;
    let otherwise = otherwise(nested, parser)?;
    parser.the(Kind::End)?;
    Ok(Expr::Case {
        arms,
        otherwise,
        at,
    })
}

/// What stands between commas inside a bracket.
#[derive(Drop)]
struct Element<'a, N> {
    nested: &'a N,
}

impl<'a, N: Nested> Phrase for Element<'a, N> {
    type Tree = Expr;

    ghost reader = { λ p _. descent.below (N.left p.nested.now) 1 (expr or_) };

    ghost callable = { λ p. N.callable p.nested.now };

    fn phrase(&self, parser: &mut Parser<'_>, _before: usize) -> Result<Expr, Refusal> {
        self.nested.lower(parser, 1, Rule::Or)
    }
}

fn listed<N: Nested>(nested: &N, parser: &mut Parser<'_>) -> Result<Items<Expr>, Refusal>
    requires { N.callable nested.now }
    ensures { Reads (descent.expressions (descent.below (N.left nested.now)) parser.old) result parser.new }
{
    list_of(&Element { nested }, parser)
}

#[tactic(auto, unfolding(cq_grammar::specs::Descent::coalesce))]
fn coalesce<N: Nested>(nested: &N, parser: &mut Parser<'_>) -> Result<Expr, Refusal>
    requires { N.callable nested.now }
    ensures { Reads (descent.coalesce (descent.below (N.left nested.now)) parser.old) result parser.new }
{
    let at = parser.the(Kind::Coalesce)?;
    parser.the(Kind::Open)?;
    let items = listed(nested, parser)?;
    parser.the(Kind::Close)?;
    Ok(Expr::Coalesce { items, at })
}

/// What COUNT counts: an expression, or nothing for `*`.
#[tactic(auto, unfolding(cq_grammar::specs::Descent::counted))]
fn counted<N: Nested>(nested: &N, parser: &mut Parser<'_>) -> Result<Option<Boxed<Expr>>, Refusal>
    requires { N.callable nested.now }
    ensures { Reads (descent.counted (descent.below (N.left nested.now)) parser.old) result parser.new }
{
    if parser.sees(&[Kind::Star]) {
        parser.the(Kind::Star)?;
        return Ok(None);
    }
    let argument = inside(nested, parser)?;
    Ok(Some(argument))
}

#[tactic(auto, unfolding(cq_grammar::specs::Descent::count))]
fn count<N: Nested>(nested: &N, parser: &mut Parser<'_>) -> Result<Expr, Refusal>
    requires { N.callable nested.now }
    ensures { Reads (descent.count (descent.below (N.left nested.now)) parser.old) result parser.new }
{
    let at = parser.the(Kind::Count)?;
    parser.the(Kind::Open)?;
    let counted = counted(nested, parser)?;
    parser.the(Kind::Close)?;
    match counted {
        None => Ok(Expr::CountAll { at }),
        Some(argument) => Ok(Expr::Aggregate {
            function: Aggregate::Count,
            argument,
            at,
        }),
    }
}

/// SUM, MIN or MAX.
#[tactic(auto, unfolding(cq_grammar::specs::Descent::aggregate))]
fn aggregate<N: Nested>(nested: &N, parser: &mut Parser<'_>) -> Result<Expr, Refusal>
    requires { N.callable nested.now }
    ensures { Reads (descent.aggregate (descent.below (N.left nested.now)) parser.old) result parser.new }
{
    let (word, at) = parser.some_of(AGGREGATE_WORDS)?;
    parser.the(Kind::Open)?;
    let argument = inside(nested, parser)?;
    parser.the(Kind::Close)?;
    Ok(Expr::Aggregate {
        function: aggregate_function(word),
        argument,
        at,
    })
}

#[tactic(auto, unfolding(cq_grammar::specs::Descent::atom))]
fn atom<N: Nested>(nested: &N, parser: &mut Parser<'_>) -> Result<Expr, Refusal>
    requires { N.callable nested.now }
    ensures { Reads (descent.atom (descent.below (N.left nested.now)) parser.old) result parser.new }
{
    if parser.sees(LITERALS) {
        literal(parser)
    } else if parser.sees(NAMES) {
        column(parser)
    } else if parser.sees(&[Kind::Open]) {
        group(nested, parser)
    } else if parser.sees(&[Kind::Case]) {
        case(nested, parser)
    } else if parser.sees(&[Kind::Coalesce]) {
        coalesce(nested, parser)
    } else if parser.sees(&[Kind::Count]) {
        count(nested, parser)
    } else {
        aggregate(nested, parser)
    }
}

#[tactic(auto, unfolding(cq_grammar::specs::Descent::signed))]
fn signed<N: Nested>(nested: &N, parser: &mut Parser<'_>) -> Result<Expr, Refusal>
    requires { N.callable nested.now }
    ensures { Reads (descent.signed (descent.below (N.left nested.now)) parser.old) result parser.new }
{
    let (sign, at) = parser.some_of(ADD_SIGNS)?;
    let inner = nested.lower(parser, 1, Rule::Unary)?;
    Ok(Expr::Signed {
        sign: add_operator(sign),
        inner: boxed(parser, inner)?,
        at,
    })
}

#[tactic(auto, unfolding(cq_grammar::specs::Descent::unary))]
fn unary<N: Nested>(nested: &N, parser: &mut Parser<'_>) -> Result<Expr, Refusal>
    requires { N.callable nested.now }
    ensures { Reads (descent.unary (descent.below (N.left nested.now)) parser.old) result parser.new }
{
    if parser.sees(ADD_SIGNS) {
        signed(nested, parser)
    } else {
        atom(nested, parser)
    }
}

/// The factors of a product but the first.
#[derive(Drop)]
struct Factor<'a, N> {
    nested: &'a N,
}

impl<'a, N: Nested> Phrase for Factor<'a, N> {
    type Tree = Multiplied;

    ghost reader = { λ p. descent.multiplied (descent.below (N.left p.nested.now)) };

    ghost callable = { λ p. N.callable p.nested.now };

    #[tactic(auto, unfolding(cq_grammar::specs::Descent::multiplied))]
    fn phrase(&self, parser: &mut Parser<'_>, before: usize) -> Result<Multiplied, Refusal> {
        let (sign, at) = parser.some_of(MULTIPLY_SIGNS)?;
        let factor = self.nested.lower(parser, before, Rule::Unary)?;
        Ok(Multiplied {
            operator: multiply_operator(sign),
            factor,
            at,
        })
    }
}

fn factors<N: Nested>(nested: &N, parser: &mut Parser<'_>) -> Result<Items<Multiplied>, Refusal>
    requires { N.callable nested.now }
    ensures { Reads (descent.factors (descent.below (N.left nested.now)) parser.old) result parser.new }
{
    many_of(&Factor { nested }, parser, MULTIPLY_SIGNS, 1)
}

#[tactic(auto, unfolding(cq_grammar::specs::Descent::term))]
fn term<N: Nested>(nested: &N, parser: &mut Parser<'_>) -> Result<Expr, Refusal>
    requires { N.callable nested.now }
    ensures { Reads (descent.term (descent.below (N.left nested.now)) parser.old) result parser.new }
{
    let first = unary(nested, parser)?;
    if !parser.sees(MULTIPLY_SIGNS) {
        return Ok(first);
    }
    let first = boxed(parser, first)?;
    let rest = factors(nested, parser)?;
    Ok(Expr::Product { first, rest })
}

/// The terms of a sum but the first.
#[derive(Drop)]
struct Addend<'a, N> {
    nested: &'a N,
}

impl<'a, N: Nested> Phrase for Addend<'a, N> {
    type Tree = Added;

    ghost reader = { λ p. descent.added (descent.below (N.left p.nested.now)) };

    ghost callable = { λ p. N.callable p.nested.now };

    #[tactic(auto, unfolding(cq_grammar::specs::Descent::added))]
    fn phrase(&self, parser: &mut Parser<'_>, before: usize) -> Result<Added, Refusal> {
        let (sign, at) = parser.some_of(ADD_SIGNS)?;
        let term = self.nested.lower(parser, before, Rule::Term)?;
        Ok(Added {
            operator: add_operator(sign),
            term,
            at,
        })
    }
}

fn terms<N: Nested>(nested: &N, parser: &mut Parser<'_>) -> Result<Items<Added>, Refusal>
    requires { N.callable nested.now }
    ensures { Reads (descent.terms (descent.below (N.left nested.now)) parser.old) result parser.new }
{
    many_of(&Addend { nested }, parser, ADD_SIGNS, 1)
}

#[tactic(auto, unfolding(cq_grammar::specs::Descent::sum))]
fn sum<N: Nested>(nested: &N, parser: &mut Parser<'_>) -> Result<Expr, Refusal>
    requires { N.callable nested.now }
    ensures { Reads (descent.sum (descent.below (N.left nested.now)) parser.old) result parser.new }
{
    let first = term(nested, parser)?;
    if !parser.sees(ADD_SIGNS) {
        return Ok(first);
    }
    let first = boxed(parser, first)?;
    let rest = terms(nested, parser)?;
    Ok(Expr::Sum { first, rest })
}

/// The items of an IN list.
#[derive(Drop)]
struct InItem<'a, N> {
    nested: &'a N,
}

impl<'a, N: Nested> Phrase for InItem<'a, N> {
    type Tree = Expr;

    ghost reader = { λ p before. descent.below (N.left p.nested.now) (1 + grammar.digits before) (expr or_) };

    ghost callable = { λ p. N.callable p.nested.now };

    fn phrase(&self, parser: &mut Parser<'_>, before: usize) -> Result<Expr, Refusal> {
        self.nested.lower(parser, 1 + digits(before), Rule::Or)
    }
}

fn in_list<N: Nested>(nested: &N, parser: &mut Parser<'_>) -> Result<Items<Expr>, Refusal>
    requires { N.callable nested.now }
    ensures { Reads (descent.list (λ before. descent.below (N.left nested.now) (1 + grammar.digits before) (expr or_)) parser.old) result parser.new }
{
    list_of(&InItem { nested }, parser)
}

#[tactic(auto, unfolding(cq_grammar::specs::Descent::in_what))]
fn in_what<N: Nested>(nested: &N, parser: &mut Parser<'_>) -> Result<Test, Refusal>
    requires { N.callable nested.now }
    ensures { Reads (descent.in_what (descent.below (N.left nested.now)) parser.old) result parser.new }
{
    if parser.sees(&[Kind::Select]) {
        let select = nested.inside_select(parser)?;
        return Ok(Test::InSelect {
            select: Boxed::new(parser.alloc(), select)?,
        });
    }
    let items = in_list(nested, parser)?;
    Ok(Test::InList { items })
}

#[tactic(auto, unfolding(cq_grammar::specs::Descent::in_test))]
fn in_test<N: Nested>(nested: &N, parser: &mut Parser<'_>) -> Result<(u64, Test), Refusal>
    requires { N.callable nested.now }
    ensures { Reads (descent.in_test (descent.below (N.left nested.now)) parser.old) result parser.new }
{
    let at = parser.the(Kind::In)?;
    parser.the(Kind::Open)?;
    let what = in_what(nested, parser)?;
    parser.the(Kind::Close)?;
    Ok((at, what))
}

#[tactic(auto, unfolding(cq_grammar::specs::Descent::between_test))]
fn between_test<N: Nested>(nested: &N, parser: &mut Parser<'_>) -> Result<(u64, Test), Refusal>
    requires { N.callable nested.now }
    ensures { Reads (descent.between_test (descent.below (N.left nested.now)) parser.old) result parser.new }
{
    let at = parser.the(Kind::Between)?;
    let low = sum(nested, parser)?;
    let low = boxed(parser, low)?;
    parser.the(Kind::And)?;
    let high = sum(nested, parser)?;
    let high = boxed(parser, high)?;
    Ok((at, Test::Between { low, high }))
}

fn in_or_between<N: Nested>(nested: &N, parser: &mut Parser<'_>) -> Result<(u64, Test), Refusal>
    requires { N.callable nested.now }
    ensures { Reads (read.choice (read.sees (k.In ∷ [])) (descent.in_test (descent.below (N.left nested.now))) (descent.between_test (descent.below (N.left nested.now))) parser.old) result parser.new }
{
    if parser.sees(&[Kind::In]) {
        in_test(nested, parser)
    } else {
        between_test(nested, parser)
    }
}

#[tactic(auto, unfolding(crate::proofs::Names::in_or_between))]
fn test<N: Nested>(
    nested: &N,
    parser: &mut Parser<'_>,
) -> Result<(Option<u64>, (u64, Test)), Refusal>
    requires { N.callable nested.now }
    ensures { Reads (descent.test (descent.below (N.left nested.now)) parser.old) result parser.new }
{
    let not = parser.optional_the(Kind::Not)?;
    let test = in_or_between(nested, parser)?;
    Ok((not, test))
}

/// A sum, with IN or BETWEEN behind it or without.
#[tactic(auto, unfolding(cq_grammar::specs::Descent::tested))]
fn tested<N: Nested>(nested: &N, parser: &mut Parser<'_>) -> Result<Expr, Refusal>
    requires { N.callable nested.now }
    ensures { Reads (descent.tested (descent.below (N.left nested.now)) parser.old) result parser.new }
{
    let operand = sum(nested, parser)?;
    if !parser.sees(TESTED_WORDS) {
        return Ok(operand);
    }
    let operand = boxed(parser, operand)?;
    let (not, (at, test)) = test(nested, parser)?;
    Ok(Expr::Tested {
        operand,
        negated: not.is_some(),
        test,
        at: first_place(not, at),
    })
}

#[tactic(auto, unfolding(cq_grammar::specs::Descent::comparison))]
fn comparison<N: Nested>(nested: &N, parser: &mut Parser<'_>) -> Result<Expr, Refusal>
    requires { N.callable nested.now }
    ensures { Reads (descent.comparison (descent.below (N.left nested.now)) parser.old) result parser.new }
{
    let left = tested(nested, parser)?;
    if !parser.sees(COMPARISON_SIGNS) {
        return Ok(left);
    }
    let left = boxed(parser, left)?;
    let (sign, at) = parser.some_of(COMPARISON_SIGNS)?;
    let right = tested(nested, parser)?;
    let right = boxed(parser, right)?;
    Ok(Expr::Compare {
        left,
        operator: comparison_operator(sign),
        right,
        at,
    })
}

fn null_tests<N: Nested>(nested: &N, parser: &mut Parser<'_>) -> Result<Items<NullTest>, Refusal>
    requires { N.callable nested.now }
    ensures { Reads (descent.null_tests (descent.below (N.left nested.now)) parser.old) result parser.new }
{
    many(
        parser,
        &[Kind::Is],
        0,
        |parser: &mut Parser<'_>, _: usize| { null_test(parser) },
    )
}

#[tactic(auto, unfolding(cq_grammar::specs::Descent::is))]
fn is<N: Nested>(nested: &N, parser: &mut Parser<'_>) -> Result<Expr, Refusal>
    requires { N.callable nested.now }
    ensures { Reads (descent.is (descent.below (N.left nested.now)) parser.old) result parser.new }
{
    let first = comparison(nested, parser)?;
    if !parser.sees(&[Kind::Is]) {
        return Ok(first);
    }
    let first = boxed(parser, first)?;
    let rest = null_tests(nested, parser)?;
    Ok(Expr::Is { first, rest })
}

#[tactic(auto, unfolding(cq_grammar::specs::Descent::negation))]
fn negation<N: Nested>(nested: &N, parser: &mut Parser<'_>) -> Result<Expr, Refusal>
    requires { N.callable nested.now }
    ensures { Reads (descent.negation (descent.below (N.left nested.now)) parser.old) result parser.new }
{
    if !parser.sees(&[Kind::Not]) {
        return is(nested, parser);
    }
    let at = parser.the(Kind::Not)?;
    let inner = nested.lower(parser, 1, Rule::Not)?;
    Ok(Expr::Not {
        inner: boxed(parser, inner)?,
        at,
    })
}

/// The parts of a chain of AND but the first.
#[derive(Drop)]
struct AndPart<'a, N> {
    nested: &'a N,
}

impl<'a, N: Nested> Phrase for AndPart<'a, N> {
    type Tree = Chained;

    ghost reader = { λ p. descent.and_part (descent.below (N.left p.nested.now)) };

    ghost callable = { λ p. N.callable p.nested.now };

    #[tactic(auto, unfolding(cq_grammar::specs::Descent::and_part))]
    fn phrase(&self, parser: &mut Parser<'_>, before: usize) -> Result<Chained, Refusal> {
        let at = parser.the(Kind::And)?;
        let part = self.nested.lower(parser, digits(before), Rule::Not)?;
        Ok(Chained { part, at })
    }
}

fn and_parts<N: Nested>(nested: &N, parser: &mut Parser<'_>) -> Result<Items<Chained>, Refusal>
    requires { N.callable nested.now }
    ensures { Reads (descent.and_parts (descent.below (N.left nested.now)) parser.old) result parser.new }
{
    many_of(&AndPart { nested }, parser, &[Kind::And], 1)
}

#[tactic(auto, unfolding(cq_grammar::specs::Descent::and_chain))]
fn and_chain<N: Nested>(nested: &N, parser: &mut Parser<'_>) -> Result<Expr, Refusal>
    requires { N.callable nested.now }
    ensures { Reads (descent.and_chain (descent.below (N.left nested.now)) parser.old) result parser.new }
{
    let first = negation(nested, parser)?;
    if !parser.sees(&[Kind::And]) {
        return Ok(first);
    }
    let first = boxed(parser, first)?;
    let rest = and_parts(nested, parser)?;
    Ok(Expr::And { first, rest })
}

/// The parts of a chain of OR but the first.
#[derive(Drop)]
struct OrPart<'a, N> {
    nested: &'a N,
}

impl<'a, N: Nested> Phrase for OrPart<'a, N> {
    type Tree = Chained;

    ghost reader = { λ p. descent.or_part (descent.below (N.left p.nested.now)) };

    ghost callable = { λ p. N.callable p.nested.now };

    #[tactic(auto, unfolding(cq_grammar::specs::Descent::or_part))]
    fn phrase(&self, parser: &mut Parser<'_>, before: usize) -> Result<Chained, Refusal> {
        let at = parser.the(Kind::Or)?;
        let part = self.nested.lower(parser, digits(before), Rule::And)?;
        Ok(Chained { part, at })
    }
}

fn or_parts<N: Nested>(nested: &N, parser: &mut Parser<'_>) -> Result<Items<Chained>, Refusal>
    requires { N.callable nested.now }
    ensures { Reads (descent.or_parts (descent.below (N.left nested.now)) parser.old) result parser.new }
{
    many_of(&OrPart { nested }, parser, &[Kind::Or], 1)
}

#[tactic(auto, unfolding(cq_grammar::specs::Descent::or_chain))]
fn or_chain<N: Nested>(nested: &N, parser: &mut Parser<'_>) -> Result<Expr, Refusal>
    requires { N.callable nested.now }
    ensures { Reads (descent.or_chain (descent.below (N.left nested.now)) parser.old) result parser.new }
{
    let first = and_chain(nested, parser)?;
    if !parser.sees(&[Kind::Or]) {
        return Ok(first);
    }
    let first = boxed(parser, first)?;
    let rest = or_parts(nested, parser)?;
    Ok(Expr::Or { first, rest })
}

/// The rules of expressions where so much of the depth is left.
#[derive(Clone, Copy)]
pub struct Expressions<F, G> {
    pub grammar: Grammar<F, G>,
}

impl<
    F: Fn(&mut Parser<'_>, usize, Rule) -> Result<Expr, Refusal>,
    G: Fn(&mut Parser<'_>, usize) -> Result<Select, Refusal>,
> Expressions<F, G> {
    /// A phrase of the rule.
    pub fn phrase(&self, parser: &mut Parser<'_>, rule: Rule) -> Result<Expr, Refusal>
        requires { Nests self.now.grammar.left (F.pre self.now.grammar.expr) (F.post self.now.grammar.expr) (G.pre self.now.grammar.select) (G.post self.now.grammar.select) }
        ensures { Reads (descent.within self.now.grammar.left (expr rule) parser.old) result parser.new }
    {
        match rule {
            Rule::Or => or_chain(&self.grammar, parser),
            Rule::And => and_chain(&self.grammar, parser),
            Rule::Not => negation(&self.grammar, parser),
            Rule::Term => term(&self.grammar, parser),
            Rule::Unary => unary(&self.grammar, parser),
        }
    }
}
