ghost use Rattle.std.specs.Prelude.{◌≡◌, IfOk};
ghost use Rattle.cq_planner.specs.Sides.{outer_by};

use cq_plan::Right;
use cq_relations::OuterJoin;
use cq_shape::Said;
use cq_value::{Items, NoMemory};
use std::alloc::Global;

/// The LEFT JOIN of which a relation is the right side, where it is one.
pub fn outer_of(
    alloc: Global,
    is_right: bool,
    right: Right<'_>,
) -> Result<Option<OuterJoin>, NoMemory>
    ensures { IfOk result (λ o. o ≡ outer_by is_right right.entry.low right.entry.pairs.now) }
{
    if is_right {
        Ok(Some(OuterJoin {
            left: right.low,
            equalities: copy_pairs(alloc, right.pairs)?,
        }))
    } else {
        Ok(None)
    }
}

/// An equal list.
fn copy_pairs(alloc: Global, pairs: &[(u32, u32)]) -> Result<Items<(u32, u32)>, NoMemory>
    ensures { IfOk result (λ list. list ≡ pairs.now) }
{
    let mut list = Items::new(alloc);
    for pair in pairs {
        list.put(*pair)?;
    }
    Ok(list)
}

/// An equal list.
pub fn copy_said(alloc: Global, said: &[Said]) -> Result<Items<Said>, NoMemory>
    ensures { IfOk result (λ list. list ≡ said.now) }
{
    let mut list = Items::new(alloc);
    for pair in said {
        list.put((pair.0, pair.1.copy(alloc)?))?;
    }
    Ok(list)
}
