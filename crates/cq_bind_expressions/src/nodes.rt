//! Expressions, each read by the production of its kind, and behind the keys of its query.

ghost use Rattle.std.specs.Prelude.{◌≡◌, MatchResult};
ghost use Rattle.cq_reading.specs.declared.error.BindError.TheVariants.{Memory};
ghost use Rattle.cq_reading.specs.Outcomes.{Binds, Judges};
ghost use Rattle.cq_reading.specs.Expressions.{reads};
ghost use Rattle.cq_reading.specs.Rules as rule;
ghost use Rattle.cq_reading.specs.Scopes as scopes;
ghost use Rattle.cq_reading.specs.Walk.{part_of};
ghost use Rattle.cq_bind_calls.specs.Parts.{PartsOf};
ghost use Rattle.cq_bind_expressions.specs.Keys.{key_of, IsKeyOf};

use crate::conditions::tested;
use crate::expressions::{aggregate, case, chain, coalesce, compare, not, null_tests, signed};
use crate::sums::{product, sum};
use cq_bind_calls::{Nested, alloc_of, nothing, plain};
use cq_bind_looks::selects;
use cq_bind_operands as operands;
use cq_bind_rules as rules;
use cq_grammar::Expr;
use cq_reading::{BindError, Bound, Found, Scope};

/// The column of the key that an expression is, which is read by itself before any grouping. Where it is refused it is none.
fn key_in(scope: &Scope<'_>, attempt: Result<Bound, BindError>) -> Result<Option<Bound>, BindError>
    ensures { IsKeyOf scope.now.keys attempt result }
{
    match attempt {
        Ok(b) => {
            let column = rules::key_column(scope.keys, &b);
            drop(b);
            column
        }
        Err(BindError::Memory) => Err(BindError::Memory),
        Err(_) => Ok(None),
    }
}

/// An expression without regard to keys.
#[tactic(auto, using(cq_bind_looks::proofs::Looks::looks))]
fn node<N: Nested>(
    nested: &N,
    found: &mut Found,
    e: &Expr,
    scope: &Scope<'_>,
) -> Result<Bound, BindError>
    requires { PartsOf (N.may_read nested.now) (N.may_select nested.now) e.now }
    ensures { Binds ((part_of e.now).node scope.now found.old) result found.new }
{
    match e {
        Expr::Or { first, rest } => chain(nested, found, true, first.get(), rest, scope),
        Expr::And { first, rest } => chain(nested, found, false, first.get(), rest, scope),
        Expr::Not { inner, at } => not(nested, found, inner.get(), *at, scope),
        Expr::Is { first, rest } => null_tests(nested, found, first.get(), rest, scope),
        Expr::Compare {
            left,
            operator,
            right,
            at,
        } => compare(
            nested,
            found,
            left.get(),
            *operator,
            right.get(),
            *at,
            scope,
        ),
        Expr::Tested {
            operand,
            negated,
            test,
            at,
        } => tested(nested, found, operand.get(), *negated, test, *at, scope),
        _ => arithmetic(nested, found, e, scope),
    }
}

/// Arithmetic, or a node of another kind that is no condition.
#[tactic(auto, using(cq_bind_looks::proofs::Looks::looks))]
fn arithmetic<N: Nested>(
    nested: &N,
    found: &mut Found,
    e: &Expr,
    scope: &Scope<'_>,
) -> Result<Bound, BindError>
    requires { PartsOf (N.may_read nested.now) (N.may_select nested.now) e.now }
    ensures { Binds ((part_of e.now).node scope.now found.old) result found.new }
{
    match e {
        Expr::Sum { first, rest } => sum(nested, found, first.get(), rest, scope),
        Expr::Product { first, rest } => product(nested, found, first.get(), rest, scope),
        Expr::Signed { sign, inner, at } => signed(nested, found, *sign, inner.get(), *at, scope),
        Expr::Group { inner, .. } => nested.expr(found, inner.get(), scope),
        _ => choice(nested, found, e, scope),
    }
}

/// CASE, COALESCE or an aggregate, or a literal or a column.
#[tactic(auto, using(cq_bind_looks::proofs::Looks::looks))]
fn choice<N: Nested>(
    nested: &N,
    found: &mut Found,
    e: &Expr,
    scope: &Scope<'_>,
) -> Result<Bound, BindError>
    requires { PartsOf (N.may_read nested.now) (N.may_select nested.now) e.now }
    ensures { Binds ((part_of e.now).node scope.now found.old) result found.new }
{
    match e {
        Expr::Case {
            arms,
            otherwise,
            at,
        } => case(nested, found, arms, otherwise, *at, scope),
        Expr::Coalesce { items, at } => coalesce(nested, found, items, *at, scope),
        Expr::CountAll { at } => rules::counted(found, scope, *at),
        Expr::Aggregate {
            function,
            argument,
            at,
        } => aggregate(nested, found, *function, argument.get(), *at, scope),
        _ => atom(e, scope),
    }
}

/// A literal or a column. There is no other node left.
#[tactic(auto, using(cq_bind_looks::proofs::Looks::looks))]
fn atom(e: &Expr, scope: &Scope<'_>) -> Result<Bound, BindError>
    ensures { Judges ((part_of e.now).node scope.now) result }
{
    match e {
        Expr::Number { value, .. } => Ok(operands::number(*value)),
        Expr::Quoted { text, .. } => operands::quoted(alloc_of(scope), text),
        Expr::Null { .. } => Ok(operands::null()),
        Expr::Column { column } => rules::column(scope, column),
        Expr::ColumnOf { relation, column } => rules::column_of(scope, relation, column),
        _ => Err(BindError::Memory),
    }
}

/// The column of the key that an expression is, if it is one.
fn as_key<N: Nested>(nested: &N, e: &Expr, scope: &Scope<'_>) -> Result<Option<Bound>, BindError>
    requires { PartsOf (N.may_read nested.now) (N.may_select nested.now) e.now }
    ensures { MatchResult result (λ k. k ≡ key_of scope.now.keys ((part_of e.now).node (scopes.plain scope.now) rule.nothing)) (λ e. e ≡ Memory) }
{
    let mut found = nothing(alloc_of(scope));
    let attempt = node(nested, &mut found, e, &plain(scope));
    key_in(scope, attempt)
}

/// The column of a key, or else the node.
fn or_node<N: Nested>(
    nested: &N,
    found: &mut Found,
    key: Option<Bound>,
    e: &Expr,
    scope: &Scope<'_>,
) -> Result<Bound, BindError>
    requires { PartsOf (N.may_read nested.now) (N.may_select nested.now) e.now }
    ensures { Binds (rule.if_key key ((part_of e.now).node scope.now) found.old) result found.new }
{
    match key {
        Some(column) => Ok(column),
        None => node(nested, found, e, scope),
    }
}

/// An expression in a query that groups by these keys.
fn keyed<N: Nested>(
    nested: &N,
    found: &mut Found,
    e: &Expr,
    scope: &Scope<'_>,
) -> Result<Bound, BindError>
    requires { PartsOf (N.may_read nested.now) (N.may_select nested.now) e.now }
    ensures { Binds (rule.keyed scope.now.keys ((part_of e.now).node (scopes.plain scope.now)) ((part_of e.now).node scope.now) found.old) result found.new }
{
    let key = as_key(nested, e, scope)?;
    or_node(nested, found, key, e, scope)
}

/// An expression in a scope. In a query that groups a whole expression that is a key stands for the key's column, where no IN
/// subquery stands in it.
pub fn reading<N: Nested>(
    nested: &N,
    found: &mut Found,
    e: &Expr,
    scope: &Scope<'_>,
) -> Result<Bound, BindError>
    requires { PartsOf (N.may_read nested.now) (N.may_select nested.now) e.now }
    ensures { Binds (reads (part_of e.now) scope.now found.old) result found.new }
{
    if scope.grouped && !selects(e) {
        keyed(nested, found, e, scope)
    } else {
        node(nested, found, e, scope)
    }
}
