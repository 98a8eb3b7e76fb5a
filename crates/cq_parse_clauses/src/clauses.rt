//! The rules of selects.

ghost use Rattle.std.specs.Prelude.{◌≡◌, ◌+◌, ℕ, [], ◌∷◌, is_some};
ghost use Rattle.cq_grammar.specs.declared.kind.Kind.TheVariants as k;
ghost use Rattle.cq_grammar.specs.Grammar.{Deeper, Tree, select};
ghost use Rattle.cq_grammar.specs.Words.{column_names};
ghost use Rattle.cq_grammar.specs.Read as read;
ghost use Rattle.cq_grammar.specs.Read.{Reader};
ghost use Rattle.cq_grammar.specs.Nodes as node;
ghost use Rattle.cq_grammar.specs.Descent as descent;
ghost use Rattle.cq_parse_steps.specs.Reads.{Reads};
ghost use Rattle.cq_parse_clauses.specs.Selecting.{Selecting};

use crate::parts::Parts;
use cq_grammar::{
    Count, Expr, From, GroupBy, Having, Item, Join, Kind, Name, OrderKey, Refusal, Relation, Rule,
    Select,
};
use cq_parse_calls::{Grammar, Phrase, direction_of, first_place, list_of, many_of};
use cq_parse_steps::{
    ALIASES, COLUMN_NAMES, DIRECTION_WORDS, INNER_WORDS, JOIN_WORDS, NAMES, Parser,
};
use cq_value::{Boxed, Items};

/// The name behind AS, if there is one.
fn behind_as(parser: &mut Parser<'_>) -> Result<Option<Name>, Refusal>
    ensures { Reads (read.optional (read.sees (k.As ∷ [])) (read.behind (descent.the k.As) (descent.named column_names)) parser.old) result parser.new }
{
    if !parser.sees(&[Kind::As]) {
        return Ok(None);
    }
    parser.the(Kind::As)?;
    let name = parser.named(COLUMN_NAMES)?;
    Ok(Some(name))
}

/// `relation.*`
#[tactic(auto, unfolding(cq_grammar::specs::Descent::all_of))]
fn all_of(parser: &mut Parser<'_>) -> Result<Item, Refusal>
    ensures { (lower : ℕ → (d : Deeper) → Reader (Tree d)) → Reads (descent.all_of lower parser.old) result parser.new }
{
    let relation = parser.named(NAMES)?;
    parser.the(Kind::Dot)?;
    parser.the(Kind::Star)?;
    Ok(Item::AllOf { relation })
}

/// An alias, with the place of AS before it.
#[tactic(auto, unfolding(cq_grammar::specs::Descent::alias))]
fn alias(parser: &mut Parser<'_>) -> Result<(Option<u64>, Name), Refusal>
    ensures { (lower : ℕ → (d : Deeper) → Reader (Tree d)) → Reads (descent.alias lower parser.old) result parser.new }
{
    let word = parser.optional_the(Kind::As)?;
    let name = parser.named(NAMES)?;
    Ok((word, name))
}

fn optional_alias(parser: &mut Parser<'_>) -> Result<Option<(Option<u64>, Name)>, Refusal>
    ensures { (lower : ℕ → (d : Deeper) → Reader (Tree d)) → Reads (read.optional (read.sees descent.aliases) (descent.alias lower) parser.old) result parser.new }
{
    if !parser.sees(ALIASES) {
        return Ok(None);
    }
    let alias = alias(parser)?;
    Ok(Some(alias))
}

/// A table by its name.
#[tactic(auto, unfolding(cq_grammar::specs::Descent::table))]
fn table(parser: &mut Parser<'_>) -> Result<Relation, Refusal>
    ensures { (lower : ℕ → (d : Deeper) → Reader (Tree d)) → Reads (descent.table lower parser.old) result parser.new }
{
    let name = parser.named(NAMES)?;
    let alias = optional_alias(parser)?;
    match alias {
        None => Ok(Relation::Table { name }),
        Some((word, alias)) => Ok(Relation::TableAs {
            name,
            spelled: word.is_some(),
            alias,
        }),
    }
}

#[tactic(auto, unfolding(cq_grammar::specs::Descent::limit))]
fn limit(parser: &mut Parser<'_>) -> Result<Option<Count>, Refusal>
    ensures { (lower : ℕ → (d : Deeper) → Reader (Tree d)) → Reads (descent.limit lower parser.old) result parser.new }
{
    if !parser.sees(&[Kind::Limit]) {
        return Ok(None);
    }
    parser.the(Kind::Limit)?;
    let count = parser.a_number()?;
    Ok(Some(count))
}

#[tactic(auto, unfolding(cq_grammar::specs::Descent::offset))]
fn offset(parser: &mut Parser<'_>) -> Result<Option<Count>, Refusal>
    ensures { (lower : ℕ → (d : Deeper) → Reader (Tree d)) → Reads (descent.offset lower parser.old) result parser.new }
{
    if !parser.sees(&[Kind::Offset]) {
        return Ok(None);
    }
    parser.the(Kind::Offset)?;
    let count = parser.a_number()?;
    Ok(Some(count))
}

/// The word behind a key of ORDER BY, if there is one.
fn direction(parser: &mut Parser<'_>) -> Result<Option<(Kind, u64)>, Refusal>
    ensures { Reads (read.optional (read.sees node.direction_words) (descent.some_of node.direction_words) parser.old) result parser.new }
{
    if !parser.sees(DIRECTION_WORDS) {
        return Ok(None);
    }
    let word = parser.some_of(DIRECTION_WORDS)?;
    Ok(Some(word))
}

#[tactic(auto, unfolding(cq_grammar::specs::Descent::output))]
fn output<P: Parts>(parts: &P, parser: &mut Parser<'_>) -> Result<Item, Refusal>
    requires { P.callable parts.now }
    ensures { Reads (descent.output (descent.below (P.left parts.now)) parser.old) result parser.new }
{
    let value = parts.or_chain(parser)?;
    let name = behind_as(parser)?;
    Ok(Item::Value { value, name })
}

/// What stands between the commas of a select list.
#[derive(Drop)]
struct SelectItem<'a, P> {
    parts: &'a P,
}

impl<'a, P: Parts> Phrase for SelectItem<'a, P> {
    type Tree = Item;

    ghost reader = { λ p _. descent.select_item (descent.below (P.left p.parts.now)) };

    ghost callable = { λ p. P.callable p.parts.now };

    #[tactic(auto, unfolding(cq_grammar::specs::Descent::select_item))]
    fn phrase(&self, parser: &mut Parser<'_>, _before: usize) -> Result<Item, Refusal> {
        if parser.sees(&[Kind::Star]) {
            let at = parser.the(Kind::Star)?;
            Ok(Item::All { at })
        } else if parser.sees_three(NAMES, &[Kind::Dot], &[Kind::Star]) {
            all_of(parser)
        } else {
            output(self.parts, parser)
        }
    }
}

fn select_items<P: Parts>(parts: &P, parser: &mut Parser<'_>) -> Result<Items<Item>, Refusal>
    requires { P.callable parts.now }
    ensures { Reads (descent.list (λ _. descent.select_item (descent.below (P.left parts.now))) parser.old) result parser.new }
{
    list_of(&SelectItem { parts }, parser)
}

#[tactic(auto, unfolding(cq_grammar::specs::Descent::subquery))]
fn subquery<P: Parts>(parts: &P, parser: &mut Parser<'_>) -> Result<Relation, Refusal>
    requires { P.callable parts.now }
    ensures { Reads (descent.subquery (descent.below (P.left parts.now)) parser.old) result parser.new }
{
    let at = parser.the(Kind::Open)?;
    let select = parts.inside_select(parser)?;
    let select = Boxed::new(parser.alloc(), select)?;
    parser.the(Kind::Close)?;
    let (word, alias) = alias(parser)?;
    Ok(Relation::Subquery {
        select,
        spelled: word.is_some(),
        alias,
        at,
    })
}

#[tactic(auto, unfolding(cq_grammar::specs::Descent::relation))]
fn relation<P: Parts>(parts: &P, parser: &mut Parser<'_>) -> Result<Relation, Refusal>
    requires { P.callable parts.now }
    ensures { Reads (descent.relation (descent.below (P.left parts.now)) parser.old) result parser.new }
{
    if parser.sees(NAMES) {
        table(parser)
    } else {
        subquery(parts, parser)
    }
}

#[tactic(auto, unfolding(cq_grammar::specs::Descent::on))]
fn on<P: Parts>(parts: &P, parser: &mut Parser<'_>) -> Result<Expr, Refusal>
    requires { P.callable parts.now }
    ensures { Reads (descent.on (descent.below (P.left parts.now)) parser.old) result parser.new }
{
    parser.the(Kind::On)?;
    parts.or_chain(parser)
}

#[tactic(auto, unfolding(cq_grammar::specs::Descent::inner_join))]
fn inner_join<P: Parts>(parts: &P, parser: &mut Parser<'_>) -> Result<Join, Refusal>
    requires { P.callable parts.now }
    ensures { Reads (descent.inner_join (descent.below (P.left parts.now)) parser.old) result parser.new }
{
    let word = parser.optional_the(Kind::Inner)?;
    let at = parser.the(Kind::Join)?;
    let relation = relation(parts, parser)?;
    let on = on(parts, parser)?;
    Ok(Join::Inner {
        spelled: word.is_some(),
        relation,
        on,
        at: first_place(word, at),
    })
}

#[tactic(auto, unfolding(cq_grammar::specs::Descent::left_join))]
fn left_join<P: Parts>(parts: &P, parser: &mut Parser<'_>) -> Result<Join, Refusal>
    requires { P.callable parts.now }
    ensures { Reads (descent.left_join (descent.below (P.left parts.now)) parser.old) result parser.new }
{
    let at = parser.the(Kind::Left)?;
    let word = parser.optional_the(Kind::Outer)?;
    parser.the(Kind::Join)?;
    let relation = relation(parts, parser)?;
    let on = on(parts, parser)?;
    Ok(Join::Left {
        spelled: word.is_some(),
        relation,
        on,
        at,
    })
}

#[tactic(auto, unfolding(cq_grammar::specs::Descent::cross_join))]
fn cross_join<P: Parts>(parts: &P, parser: &mut Parser<'_>) -> Result<Join, Refusal>
    requires { P.callable parts.now }
    ensures { Reads (descent.cross_join (descent.below (P.left parts.now)) parser.old) result parser.new }
{
    let at = parser.the(Kind::Cross)?;
    parser.the(Kind::Join)?;
    let relation = relation(parts, parser)?;
    Ok(Join::Cross { relation, at })
}

/// A join behind the first relation.
#[derive(Drop)]
struct Joined<'a, P> {
    parts: &'a P,
}

impl<'a, P: Parts> Phrase for Joined<'a, P> {
    type Tree = Join;

    ghost reader = { λ p _. descent.join (descent.below (P.left p.parts.now)) };

    ghost callable = { λ p. P.callable p.parts.now };

    #[tactic(auto, unfolding(cq_grammar::specs::Descent::join))]
    fn phrase(&self, parser: &mut Parser<'_>, _before: usize) -> Result<Join, Refusal> {
        if parser.sees(INNER_WORDS) {
            inner_join(self.parts, parser)
        } else if parser.sees(&[Kind::Left]) {
            left_join(self.parts, parser)
        } else {
            cross_join(self.parts, parser)
        }
    }
}

fn joins<P: Parts>(parts: &P, parser: &mut Parser<'_>) -> Result<Items<Join>, Refusal>
    requires { P.callable parts.now }
    ensures { Reads (descent.joins_ (descent.below (P.left parts.now)) parser.old) result parser.new }
{
    many_of(&Joined { parts }, parser, JOIN_WORDS, 0)
}

/// What stands between the commas of FROM.
#[derive(Drop)]
struct FromItem<'a, P> {
    parts: &'a P,
}

impl<'a, P: Parts> Phrase for FromItem<'a, P> {
    type Tree = From;

    ghost reader = { λ p _. descent.from_item (descent.below (P.left p.parts.now)) };

    ghost callable = { λ p. P.callable p.parts.now };

    #[tactic(auto, unfolding(cq_grammar::specs::Descent::from_item))]
    fn phrase(&self, parser: &mut Parser<'_>, _before: usize) -> Result<From, Refusal> {
        let first = relation(self.parts, parser)?;
        let joins = joins(self.parts, parser)?;
        Ok(From { first, joins })
    }
}

fn from_items<P: Parts>(parts: &P, parser: &mut Parser<'_>) -> Result<Items<From>, Refusal>
    requires { P.callable parts.now }
    ensures { Reads (descent.list (λ _. descent.from_item (descent.below (P.left parts.now))) parser.old) result parser.new }
{
    list_of(&FromItem { parts }, parser)
}

/// WHERE and its condition, or nothing.
#[tactic(auto, unfolding(cq_grammar::specs::Descent::filter))]
fn filter<P: Parts>(parts: &P, parser: &mut Parser<'_>) -> Result<Option<Expr>, Refusal>
    requires { P.callable parts.now }
    ensures { Reads (descent.filter (descent.below (P.left parts.now)) parser.old) result parser.new }
{
    if !parser.sees(&[Kind::Where]) {
        return Ok(None);
    }
    parser.the(Kind::Where)?;
    let condition = parts.or_chain(parser)?;
    Ok(Some(condition))
}

fn boxed_filter<P: Parts>(
    parts: &P,
    parser: &mut Parser<'_>,
) -> Result<Option<Boxed<Expr>>, Refusal>
    requires { P.callable parts.now }
    ensures { Reads (descent.filter (descent.below (P.left parts.now)) parser.old) result parser.new }
{
    let filter = filter(parts, parser)?;
    match filter {
        None => Ok(None),
        Some(condition) => Ok(Some(Boxed::new(parser.alloc(), condition)?)),
    }
}

/// What stands between the commas of GROUP BY.
#[derive(Drop)]
struct GroupKey<'a, P> {
    parts: &'a P,
}

impl<'a, P: Parts> Phrase for GroupKey<'a, P> {
    type Tree = Expr;

    ghost reader = { λ p _. descent.or_chain (descent.below (P.left p.parts.now)) };

    ghost callable = { λ p. P.callable p.parts.now };

    fn phrase(&self, parser: &mut Parser<'_>, _before: usize) -> Result<Expr, Refusal> {
        self.parts.or_chain(parser)
    }
}

fn group_keys<P: Parts>(parts: &P, parser: &mut Parser<'_>) -> Result<Items<Expr>, Refusal>
    requires { P.callable parts.now }
    ensures { Reads (descent.list (λ _. descent.or_chain (descent.below (P.left parts.now))) parser.old) result parser.new }
{
    list_of(&GroupKey { parts }, parser)
}

#[tactic(auto, unfolding(cq_grammar::specs::Descent::group_by))]
fn group_by<P: Parts>(parts: &P, parser: &mut Parser<'_>) -> Result<GroupBy, Refusal>
    requires { P.callable parts.now }
    ensures { Reads (descent.group_by (descent.below (P.left parts.now)) parser.old) result parser.new }
{
    let at = parser.the(Kind::Group)?;
    parser.the(Kind::By)?;
    let keys = group_keys(parts, parser)?;
    Ok(GroupBy { keys, at })
}

fn optional_group_by<P: Parts>(
    parts: &P,
    parser: &mut Parser<'_>,
) -> Result<Option<GroupBy>, Refusal>
    requires { P.callable parts.now }
    ensures { Reads (read.optional (read.sees (k.Group ∷ [])) (descent.group_by (descent.below (P.left parts.now))) parser.old) result parser.new }
{
    if !parser.sees(&[Kind::Group]) {
        return Ok(None);
    }
    let groups = group_by(parts, parser)?;
    Ok(Some(groups))
}

#[tactic(auto, unfolding(cq_grammar::specs::Descent::having))]
fn having<P: Parts>(parts: &P, parser: &mut Parser<'_>) -> Result<Having, Refusal>
    requires { P.callable parts.now }
    ensures { Reads (descent.having (descent.below (P.left parts.now)) parser.old) result parser.new }
{
    let at = parser.the(Kind::Having)?;
    let condition = parts.or_chain(parser)?;
    Ok(Having { condition, at })
}

fn optional_having<P: Parts>(parts: &P, parser: &mut Parser<'_>) -> Result<Option<Having>, Refusal>
    requires { P.callable parts.now }
    ensures { Reads (read.optional (read.sees (k.Having ∷ [])) (descent.having (descent.below (P.left parts.now))) parser.old) result parser.new }
{
    if !parser.sees(&[Kind::Having]) {
        return Ok(None);
    }
    let having = having(parts, parser)?;
    Ok(Some(having))
}

/// What stands between the commas of ORDER BY.
#[derive(Drop)]
struct SortKey<'a, P> {
    parts: &'a P,
}

impl<'a, P: Parts> Phrase for SortKey<'a, P> {
    type Tree = OrderKey;

    ghost reader = { λ p _. descent.order_key (descent.below (P.left p.parts.now)) };

    ghost callable = { λ p. P.callable p.parts.now };

    #[tactic(auto, unfolding(cq_grammar::specs::Descent::order_key))]
    fn phrase(&self, parser: &mut Parser<'_>, _before: usize) -> Result<OrderKey, Refusal> {
        let key = self.parts.or_chain(parser)?;
        let word = direction(parser)?;
        Ok(OrderKey {
            key,
            direction: word.map(|(word, _)| direction_of(word)),
        })
    }
}

fn order_keys<P: Parts>(parts: &P, parser: &mut Parser<'_>) -> Result<Items<OrderKey>, Refusal>
    requires { P.callable parts.now }
    ensures { Reads (descent.list (λ _. descent.order_key (descent.below (P.left parts.now))) parser.old) result parser.new }
{
    list_of(&SortKey { parts }, parser)
}

#[tactic(auto, unfolding(cq_grammar::specs::Descent::order_by))]
fn order_by<P: Parts>(parts: &P, parser: &mut Parser<'_>) -> Result<Items<OrderKey>, Refusal>
    requires { P.callable parts.now }
    ensures { Reads (descent.order_by (descent.below (P.left parts.now)) parser.old) result parser.new }
{
    if !parser.sees(&[Kind::Order]) {
        return Ok(Items::new(parser.alloc()));
    }
    parser.the(Kind::Order)?;
    parser.the(Kind::By)?;
    order_keys(parts, parser)
}

#[tactic(auto, unfolding(cq_grammar::specs::Descent::select_list))]
fn select_list<P: Parts>(
    parts: &P,
    parser: &mut Parser<'_>,
) -> Result<(u64, (Option<u64>, Items<Item>)), Refusal>
    requires { P.callable parts.now }
    ensures { Reads (descent.select_list (descent.below (P.left parts.now)) parser.old) result parser.new }
{
    let at = parser.the(Kind::Select)?;
    let distinct = parser.optional_the(Kind::Distinct)?;
    let items = select_items(parts, parser)?;
    Ok((at, (distinct, items)))
}

fn sources<P: Parts>(parts: &P, parser: &mut Parser<'_>) -> Result<Items<From>, Refusal>
    requires { P.callable parts.now }
    ensures { Reads (read.behind (descent.the k.From) (descent.list (λ _. descent.from_item (descent.below (P.left parts.now)))) parser.old) result parser.new }
{
    parser.the(Kind::From)?;
    from_items(parts, parser)
}

/// What is selected from where.
#[tactic(auto, unfolding(cq_grammar::specs::Descent::selection))]
fn selection<P: Parts>(
    parts: &P,
    parser: &mut Parser<'_>,
) -> Result<
    (
        (u64, (Option<u64>, Items<Item>)),
        (Items<From>, Option<Boxed<Expr>>),
    ),
    Refusal,
>
    requires { P.callable parts.now }
    ensures { Reads (descent.selection (descent.below (P.left parts.now)) parser.old) result parser.new }
{
    let list = select_list(parts, parser)?;
    let from = sources(parts, parser)?;
    let filter = boxed_filter(parts, parser)?;
    Ok((list, (from, filter)))
}

/// How it is grouped.
#[tactic(auto, unfolding(cq_grammar::specs::Descent::grouping))]
fn grouping<P: Parts>(
    parts: &P,
    parser: &mut Parser<'_>,
) -> Result<(Option<GroupBy>, Option<Having>), Refusal>
    requires { P.callable parts.now }
    ensures { Reads (descent.grouping (descent.below (P.left parts.now)) parser.old) result parser.new }
{
    let groups = optional_group_by(parts, parser)?;
    let having = optional_having(parts, parser)?;
    Ok((groups, having))
}

/// How it is ordered, and which part is kept.
#[tactic(auto, unfolding(cq_grammar::specs::Descent::ordering))]
fn ordering<P: Parts>(
    parts: &P,
    parser: &mut Parser<'_>,
) -> Result<(Items<OrderKey>, (Option<Count>, Option<Count>)), Refusal>
    requires { P.callable parts.now }
    ensures { Reads (descent.ordering (descent.below (P.left parts.now)) parser.old) result parser.new }
{
    let order = order_by(parts, parser)?;
    let limit = limit(parser)?;
    let offset = offset(parser)?;
    Ok((order, (limit, offset)))
}

#[tactic(auto, unfolding(cq_grammar::specs::Descent::selected))]
fn selected<P: Parts>(parts: &P, parser: &mut Parser<'_>) -> Result<Select, Refusal>
    requires { P.callable parts.now }
    ensures { Reads (descent.selected (descent.below (P.left parts.now)) parser.old) result parser.new }
{
    let ((at, (distinct, items)), (from, filter)) = selection(parts, parser)?;
    let (groups, having) = grouping(parts, parser)?;
    let (order, (limit, offset)) = ordering(parts, parser)?;
    Ok(Select {
        distinct: distinct.is_some(),
        items,
        from,
        filter,
        groups,
        having,
        order,
        limit,
        offset,
        at,
    })
}

/// The rules of SELECTs where so much of the depth is left. Its expressions are parsed where just as much is.
#[derive(Clone, Copy)]
pub struct Selects<F, G> {
    pub grammar: Grammar<F, G>,
}

impl<
    F: Fn(&mut Parser<'_>, usize, Rule) -> Result<Expr, Refusal>,
    G: Fn(&mut Parser<'_>, usize) -> Result<Select, Refusal>,
> Selects<F, G> {
    /// WHERE and its condition, or nothing.
    pub fn filter(&self, parser: &mut Parser<'_>) -> Result<Option<Expr>, Refusal>
        requires { Selecting self.now.grammar.left (F.pre self.now.grammar.expr) (F.post self.now.grammar.expr) (G.pre self.now.grammar.select) (G.post self.now.grammar.select) }
        ensures { Reads (descent.filter (descent.below self.now.grammar.left) parser.old) result parser.new }
    {
        filter(&self.grammar, parser)
    }

    pub fn selected(&self, parser: &mut Parser<'_>) -> Result<Select, Refusal>
        requires { Selecting self.now.grammar.left (F.pre self.now.grammar.expr) (F.post self.now.grammar.expr) (G.pre self.now.grammar.select) (G.post self.now.grammar.select) }
        ensures { Reads (descent.selected (descent.below self.now.grammar.left) parser.old) result parser.new }
    {
        selected(&self.grammar, parser)
    }
}
