ghost use Rattle.std.specs.Prelude.{◌≡◌, ◌<◌, ◌≤◌, ◌++◌, ◌∷◌, [], fold, not, ◌||◌, ◌&&◌, nat_eq, IfOk, OnOk};
ghost use Rattle.std.specs.List.{list_any, list_all};
ghost use Rattle.std.specs.Option.{option_copied};
ghost use Rattle.cq_meaning.specs.Values.{same_value};
ghost use Rattle.cq_demands.specs.JoinDemands.{demand_at as demand_at_by_rule, carried, spread as spread_by_rule, demanded as demanded_by_rule, is_in as is_in_by_rule, in_range as in_range_by_rule, is_demand as is_demand_by_rule, is_of_each as is_of_each_by_rule, wanted_of as wanted_of_by_rule, wants_of as wants_of_by_rule, wants_at as wants_at_by_rule, wants_in as wants_in_by_rule};

use crate::joins::{Leaf, leaves_of, put_on_demands, ties_of};
use crate::wanted::{Wanted, wanted_by};
use cq_tree::{Cond, FromTree};
use cq_value::{Duplicate, Items, NoMemory, Value, order};
use std::alloc::Global;

/// The values that are wanted of the rows of tables, by the tables' numbers.
pub type Wants = Items<(u32, Wanted)>;

/// The value that is demanded of a column.
fn demand_at(demanded: &[(u32, Value)], column: u32) -> Option<&Value>
    ensures { option_copied result ≡ demand_at_by_rule demanded.now column }
{
    for pair in demanded {
        if pair.0 == column {
            return Some(&pair.1);
        }
    }
    None
}

/// Puts the demand of one of two equal columns last for the other, where that has none.
fn carry(alloc: Global, demanded: &mut Wanted, tie: (u32, u32)) -> Result<(), NoMemory>
    ensures { OnOk result (demanded.new ≡ carried demanded.old tie) }
{
    let left = demand_at(demanded.as_slice(), tie.0);
    let right = demand_at(demanded.as_slice(), tie.1);
    let more = match (left, right) {
        (Some(value), None) => (tie.1, value.copy(alloc)?),
        (None, Some(value)) => (tie.0, value.copy(alloc)?),
        (Some(_), Some(_)) | (None, None) => return Ok(()),
    };
    demanded.put(more)
}

/// Carries demands along each of these equalities.
fn carry_all(alloc: Global, demanded: &mut Wanted, ties: &[(u32, u32)]) -> Result<(), NoMemory>
    ensures { OnOk result (demanded.new ≡ fold carried demanded.old ties.now) }
{
    for tie in ties {
        carry(alloc, demanded, *tie)?;
    }
    Ok(())
}

/// Carries demands along these equalities as often as there are equalities.
fn spread(alloc: Global, demanded: &mut Wanted, ties: &[(u32, u32)]) -> Result<(), NoMemory>
    ensures { OnOk result (demanded.new ≡ spread_by_rule ties.now ties.now demanded.old) }
{
    for _tie in ties {
        carry_all(alloc, demanded, ties)?;
    }
    Ok(())
}

/// What WHERE and the ONs demand of the columns of a FROM.
fn demanded(alloc: Global, filter: &Cond, from: &FromTree) -> Result<Wanted, NoMemory>
    ensures { IfOk result (λ demanded. demanded ≡ demanded_by_rule filter.now from.now) }
{
    let mut demanded = wanted_by(alloc, filter)?;
    put_on_demands(alloc, &mut demanded, from)?;
    let ties = ties_of(alloc, filter, from)?;
    spread(alloc, &mut demanded, ties.as_slice())?;
    Ok(demanded)
}

/// Whether a column is one of a table's.
fn is_in(leaf: Leaf, column: u32) -> bool
    ensures { result ≡ is_in_by_rule leaf.start leaf.columns column }
{
    let column = u64::from(column);
    leaf.start <= column && column - leaf.start < u64::from(leaf.columns)
}

/// Whether what is demanded of a column is this demand of a place of a table. Of the right side of a LEFT JOIN nothing is demanded, since
/// that has padded rows too.
fn is_demand(leaf: Leaf, wanted: &(u32, Value), other: &(u32, Value)) -> bool
    ensures { result ≡ is_demand_by_rule leaf wanted.now other.now }
{
    !leaf.padded
        && is_in(leaf, other.0)
        && (u64::from(other.0) - leaf.start == u64::from(wanted.0)
            && order(&other.1, &wanted.1).is_eq())
}

/// Whether that is demanded of a place of a table.
fn is_demanded(leaf: Leaf, demanded: &[(u32, Value)], wanted: &(u32, Value)) -> bool
    ensures { result ≡ list_any (is_demand_by_rule leaf wanted.now) demanded.now }
{
    demanded.iter().any(|other| is_demand(leaf, wanted, other))
}

/// Whether it is demanded wherever a table stands in the FROM.
fn is_of_each(leaves: &[Leaf], demanded: &[(u32, Value)], table: u32, wanted: &(u32, Value)) -> bool
    ensures { result ≡ is_of_each_by_rule leaves.now demanded.now table wanted.now }
{
    leaves.iter().all(|leaf| leaf.table != table || is_demanded(*leaf, demanded, wanted))
}

/// What is demanded of the columns of a table, by their places.
fn in_range(alloc: Global, leaf: Leaf, demanded: &[(u32, Value)]) -> Result<Wanted, NoMemory>
    ensures { IfOk result (λ wanted. wanted ≡ in_range_by_rule leaf.start leaf.columns demanded.now) }
{
    let mut wanted = Wanted::new(alloc);
    for pair in demanded {
        if is_in(leaf, pair.0) {
            let place = (u64::from(pair.0) - leaf.start) as u32;
            wanted.put((place, pair.1.copy(alloc)?))?;
        }
    }
    Ok(wanted)
}

/// The values that are wanted of a table's rows.
fn wanted_of(
    alloc: Global,
    leaves: &[Leaf],
    demanded: &[(u32, Value)],
    leaf: Leaf,
) -> Result<Wanted, NoMemory>
    ensures { IfOk result (λ wanted. wanted ≡ wanted_of_by_rule leaves.now demanded.now leaf) }
{
    let mut wanted = Wanted::new(alloc);
    for pair in in_range(alloc, leaf, demanded)?.into_vec() {
        if is_of_each(leaves, demanded, leaf.table, &pair) {
            wanted.put(pair)?;
        }
    }
    Ok(wanted)
}

/// The values that are wanted of each table's rows.
fn wants_of(alloc: Global, leaves: &[Leaf], demanded: &[(u32, Value)]) -> Result<Wants, NoMemory>
    ensures { IfOk result (λ wants. wants ≡ wants_of_by_rule leaves.now demanded.now) }
{
    let mut wants = Wants::new(alloc);
    for leaf in leaves {
        wants.put((leaf.table, wanted_of(alloc, leaves, demanded, *leaf)?))?;
    }
    Ok(wants)
}

/// The values that a query of joins wants of the rows of its tables: those that its WHERE and the ONs of its inner joins demand wherever
/// the table stands in its FROM, be it by way of equal columns. Of a table on the right side of a LEFT JOIN it wants all rows.
///
/// Errors: the FROM has a subquery, or want of memory.
pub fn wants_in(alloc: Global, filter: &Cond, from: &FromTree) -> Result<Wants, NoMemory>
    ensures { IfOk result (λ wants. wants ≡ wants_in_by_rule filter.now from.now) }
{
    let leaves = leaves_of(alloc, from)?;
    let demanded = demanded(alloc, filter, from)?;
    wants_of(alloc, leaves.as_slice(), demanded.as_slice())
}

/// The values that are wanted of a table's rows, or `none`.
pub fn wants_at<'a>(wants: &'a [(u32, Wanted)], table: u32, none: &'a Wanted) -> &'a Wanted
    requires { none.now ≡ [] }
    ensures { result.now ≡ wants_at_by_rule wants.now table }
{
    for pair in wants {
        if pair.0 == table {
            return &pair.1;
        }
    }
    none
}
