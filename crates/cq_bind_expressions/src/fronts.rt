//! The longest front of a chain from left to right that is a key of its query.

ghost use Rattle.std.specs.Prelude.{◌≡◌, ◌&&◌, not, None, IfOk, MatchResult};
ghost use Rattle.std.specs.List.{All};
ghost use Rattle.cq_reading.specs.declared.error.BindError.TheVariants.{Memory};
ghost use Rattle.cq_reading.specs.Scopes as scopes;
ghost use Rattle.cq_reading.specs.Expressions.{reads};
ghost use Rattle.cq_reading.specs.Walk.{part_of};
ghost use Rattle.cq_bind_expressions.specs.Fronts.{Finds, GoesOn, IsAmong, IsWithin, behind, front_of, front_read, key_of, longer, longest, tried, tried_part};
ghost use Rattle.cq_bind_expressions.specs.Operands.{with_operand};

use crate::operand::{Operand, tried_operand, unless_refused};
use cq_bind_calls::{Nested, alloc_of, nothing, plain};
use cq_bind_looks::selects;
use cq_bind_rules as rules;
use cq_grammar as grammar;
use cq_reading::{BindError, Bound, Found, Scope};
use cq_tree::Expr;

/// A front that is a key.
#[derive(Drop)]
pub(crate) struct Front {
    /// The key's column.
    pub column: Bound,
    /// How many operands stand in it behind the first.
    pub taken: usize,
}

/// The column of the key that a front is.
fn key_of(keys: &[Expr], front: &Option<Bound>) -> Result<Option<Bound>, BindError>
    ensures { MatchResult result (λ k. k ≡ key_of keys.now front.now) (λ e. e ≡ Memory) }
{
    match front {
        Some(front) => rules::key_column(keys, front),
        None => Ok(None),
    }
}

/// A front of so many operands that stands for `column`, if it is a key, or else the best one before.
fn front_of(column: Option<Bound>, taken: usize, best: Option<Front>) -> Option<Front>
    ensures { result ≡ front_of column taken best }
{
    match column {
        Some(column) => {
            drop(best);
            Some(Front { column, taken })
        }
        None => best,
    }
}

/// How far the search for the longest front has come.
#[derive(Drop)]
pub(crate) struct Search {
    /// What the front up to here is read as before any grouping, where it may be a key and isn't refused.
    pub front: Option<Bound>,
    /// The longest front by now that is a key.
    pub best: Option<Front>,
}

/// The search with a front of so many operands, if there is one.
fn extended(
    keys: &[Expr],
    front: Option<Bound>,
    taken: usize,
    best: Option<Front>,
) -> Result<Search, BindError>
    ensures { MatchResult result (λ s. (s.front ≡ front) × (s.best ≡ front_of (key_of keys.now front) taken best)) (λ e. e ≡ Memory) }
{
    match key_of(keys, &front) {
        Ok(column) => {
            let best = front_of(column, taken, best);
            Ok(Search { front, best })
        }
        Err(e) => {
            drop((front, best));
            Err(e)
        }
    }
}

/// The front with one operand more, and none where there is no front.
fn lengthened<N: Nested, T: Operand>(
    nested: &N,
    found: &mut Found,
    front: Option<Bound>,
    operand: &T,
    scope: &Scope<'_>,
) -> Result<Option<Bound>, BindError>
    requires { N.may_read nested.now (T.inner operand.now) }
    ensures { Finds (longer T.part (with_operand T.part T.joins scope.now) (front_read front found.old) operand.now) result found.new }
{
    match front {
        Some(front) => tried_operand(nested, found, front, operand, scope),
        None => Ok(None),
    }
}

/// The search with one operand more.
fn searched<N: Nested, T: Operand>(
    nested: &N,
    found: &mut Found,
    search: Search,
    operand: &T,
    taken: usize,
    keys: &[Expr],
    scope: &Scope<'_>,
) -> Result<Search, BindError>
    requires { N.may_read nested.now (T.inner operand.now) }
    ensures goes_on { MatchResult result (λ s. GoesOn keys.now (longer T.part (with_operand T.part T.joins scope.now) (front_read search.front found.old) operand.now) taken search.best s found.new) (λ e. e ≡ Memory) }
    ensures within { IfOk result (λ s. IsAmong taken search.best s.best) }
{
    let Search { front, best } = search;
    match lengthened(nested, found, front, operand, scope) {
        Ok(front) => extended(keys, front, taken, best),
        Err(e) => {
            drop(best);
            Err(e)
        }
    }
}

/// The longest front of a chain that is one of the keys: `first` is what the first operand is read as before any grouping, where it
/// may be a key and isn't refused, and `before` is the scope before any grouping. The only error is want of memory.
fn longest_front<N: Nested, T: Operand>(
    nested: &N,
    found: &mut Found,
    first: Option<Bound>,
    rest: &[T],
    keys: &[Expr],
    before: &Scope<'_>,
) -> Result<Option<Front>, BindError>
    requires { All (λ x. N.may_read nested.now (T.inner x)) rest.now }
    ensures longest { MatchResult result (λ k. behind rest.now k ≡ longest keys.now T.part (with_operand T.part T.joins before.now) None (front_read first found.old) rest.now) (λ e. e ≡ Memory) }
    ensures within { IfOk result (λ k. IsWithin rest.now k) }
{
    let mut search = Search {
        front: first,
        best: None,
    };
    'operands: for (i, operand) in rest.iter().enumerate() {
        search = searched(nested, found, search, operand, i + 1, keys, before)?;
    }
    let Search { front, best } = search;
    drop(front);
    Ok(best)
}

/// What an operand is read as before any grouping, where its query groups and no subquery stands in it. None where it is refused.
#[tactic(auto, using(cq_bind_looks::proofs::Looks::looks))]
fn tried<N: Nested>(
    nested: &N,
    found: &mut Found,
    e: &grammar::Expr,
    scope: &Scope<'_>,
) -> Result<Option<Bound>, BindError>
    requires { N.may_read nested.now e.now }
    ensures { Finds (tried (scope.now.grouped && not (part_of e.now).selects) (reads (part_of e.now) (scopes.plain scope.now) found.old)) result found.new }
{
    if scope.grouped && !selects(e) {
        unless_refused(nested.expr(found, e, &plain(scope)))
    } else {
        Ok(None)
    }
}

/// The longest front of a chain that is a key of its query, if it groups. The only error is want of memory.
pub(crate) fn key_front<N: Nested, T: Operand>(
    nested: &N,
    first: &grammar::Expr,
    rest: &[T],
    scope: &Scope<'_>,
) -> Result<Option<Front>, BindError>
    requires first { N.may_read nested.now first.now }
    requires rest { All (λ x. N.may_read nested.now (T.inner x)) rest.now }
    ensures longest { MatchResult result (λ k. behind rest.now k ≡ longest scope.now.keys T.part (with_operand T.part T.joins (scopes.plain scope.now)) None (tried_part scope.now (part_of first.now)) rest.now) (λ e. e ≡ Memory) }
    ensures within { IfOk result (λ k. IsWithin rest.now k) }
{
    let mut found = nothing(alloc_of(scope));
    let first = tried(nested, &mut found, first, scope)?;
    longest_front(nested, &mut found, first, rest, scope.keys, &plain(scope))
}
