ghost use Rattle.std.specs.Prelude.{◌≡◌, ◌++◌, ◌∷◌, [], filter, IfOk, OnOk};
ghost use Rattle.cq_meaning.specs.Groups.{is_known};
ghost use Rattle.cq_planning.specs.Conjuncts.{conjuncts, inner_conjuncts, column_of as column_by_rule, literal_of as literal_by_rule, both_of, one_value as one_value_by_rule, both_halves, in_list, turned_equality};
ghost use Rattle.cq_planning.specs.ValueSets.{values_said as said_by_rule, sets_said, or_else, known_values, ascending as ascending_by_rule};

use crate::ascending::ascending;
use crate::conjuncts::{column_of, literal_of};
use cq_tree::{Cond, Expr, FromTree, Op};
use cq_value::{Items, NoMemory, Value, Values, both};
use std::alloc::Global;

/// A column, and values that are said of it.
pub type Said = (u32, Values);

/// One value of a column.
fn one_value(alloc: Global, column: u32, value: &Value) -> Result<Said, NoMemory>
    ensures { IfOk result (λ p. p ≡ (column, value.now ∷ [])) }
{
    let mut values = Values::with_room(alloc, 1)?;
    values.put(value.copy(alloc)?)?;
    Ok((column, values))
}

/// What `x = literal` says, from its two sides.
fn equal_to(alloc: Global, x: &Expr, literal: &Expr) -> Result<Option<Said>, NoMemory>
    ensures { IfOk result (λ r. r ≡ one_value_by_rule (both_of (column_by_rule x.now) (literal_by_rule literal.now))) }
{
    match x {
        Expr::Column(column) => match literal {
            Expr::Literal(value) => Ok(Some(one_value(alloc, *column, value)?)),
            _ => Ok(None),
        },
        _ => Ok(None),
    }
}

/// Moves values to the end of others.
fn joined(values: Values, more: Values) -> Result<Values, NoMemory>
    ensures { IfOk result (λ all. all ≡ values ++ more) }
{
    let mut all = values;
    for value in more.into_vec() {
        all.put(value)?;
    }
    Ok(all)
}

/// What the two halves of an IN say: they are of one column, and the first has as many values as the second, or one more.
fn halves(first: Option<Said>, second: Option<Said>) -> Result<Option<Said>, NoMemory>
    ensures { IfOk result (λ r. r ≡ both_halves first second) }
{
    match first {
        Some((x, values)) => match second {
            Some((y, more)) => {
                if x == y && (values.len() == more.len() || values.len() == more.len() + 1) {
                    Ok(Some((x, joined(values, more)?)))
                } else {
                    Ok(None)
                }
            }
            None => Ok(None),
        },
        None => Ok(None),
    }
}

/// What `x IN (literals)` says, as it is bound: equalities in halves. NULL is among the values.
fn listed(alloc: Global, c: &Cond) -> Result<Option<Said>, NoMemory>
    ensures { IfOk result (λ r. r ≡ in_list c.now) }
{
    match c {
        Cond::Compare(op, a, b) => match op {
            Op::Eq => equal_to(alloc, a, b),
            _ => Ok(None),
        },
        Cond::Or(a, b) => {
            let (first, second) = both(listed(alloc, a.get()), listed(alloc, b.get()))?;
            halves(first, second)
        }
        _ => Ok(None),
    }
}

/// What `literal = x` says.
fn turned(alloc: Global, c: &Cond) -> Result<Option<Said>, NoMemory>
    ensures { IfOk result (λ r. r ≡ turned_equality c.now) }
{
    match c {
        Cond::Compare(op, a, b) => match op {
            Op::Eq => equal_to(alloc, b, a),
            _ => Ok(None),
        },
        _ => Ok(None),
    }
}

fn either(alloc: Global, c: &Cond) -> Result<Option<Said>, NoMemory>
    ensures { IfOk result (λ r. r ≡ or_else (in_list c.now) (turned_equality c.now)) }
{
    match listed(alloc, c)? {
        Some(said) => Ok(Some(said)),
        None => turned(alloc, c),
    }
}

/// The values but NULL.
fn known(values: Values) -> Values
    ensures { result ≡ filter is_known values }
{
    let mut kept = values.into_vec();
    kept.retain(|value| !matches!(value, Value::Null));
    Items::from_vec(kept)
}

/// What a conjunct says of a column, if it is `x = literal`, `literal = x` or `x IN (literals)`: its values in ascending order, each once,
/// NULL left out.
fn values_said(alloc: Global, c: &Cond) -> Result<Option<Said>, NoMemory>
    ensures { IfOk result (λ r. r ≡ said_by_rule c.now) }
{
    match either(alloc, c)? {
        Some((column, values)) => Ok(Some((column, ascending(alloc, known(values))?))),
        None => Ok(None),
    }
}

/// Puts what the conjuncts of a condition say last.
pub fn put_said(alloc: Global, sets: &mut Items<Said>, c: &Cond) -> Result<(), NoMemory>
    ensures { OnOk result (sets.new ≡ sets.old ++ sets_said (conjuncts c.now)) }
{
    match c {
        Cond::And(a, b) => {
            put_said(alloc, sets, a.get())?;
            put_said(alloc, sets, b.get())
        }
        _ => match values_said(alloc, c)? {
            Some(said) => sets.put(said),
            None => Ok(()),
        },
    }
}

/// Puts what the ON of the inner joins of a FROM say last.
pub fn put_inner_said(
    alloc: Global,
    sets: &mut Items<Said>,
    from: &FromTree,
) -> Result<(), NoMemory>
    ensures { OnOk result (sets.new ≡ sets.old ++ sets_said (inner_conjuncts from.now)) }
{
    match from {
        FromTree::Cross(a, b) => {
            put_inner_said(alloc, sets, a.get())?;
            put_inner_said(alloc, sets, b.get())
        }
        FromTree::Inner(a, b, on) => {
            put_inner_said(alloc, sets, a.get())?;
            put_inner_said(alloc, sets, b.get())?;
            put_said(alloc, sets, on)
        }
        FromTree::Left(a, _, _) => put_inner_said(alloc, sets, a.get()),
        _ => Ok(()),
    }
}
