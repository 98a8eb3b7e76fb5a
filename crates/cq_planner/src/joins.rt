ghost use Rattle.std.specs.Prelude.{◌≡◌, ◌++◌, IfOk};
ghost use Rattle.cq_tree.specs.declared.query.FromTree.{Cross, Inner, Left};
ghost use Rattle.cq_plan.specs.Touches.{as_one};

use cq_copies::CopyTree;
use cq_plan::{BegunList, as_one_relation, joined};
use cq_tree::{Cond, FromTree};
use cq_value::{Boxed, NoMemory};
use std::alloc::Global;

/// A part of a FROM: its relations with their value sets, and what stays of it.
#[derive(Debug, Drop)]
pub struct Walked {
    pub relations: BegunList,
    pub from: FromTree,
}

fn boxed_two(
    alloc: Global,
    a: FromTree,
    b: FromTree,
) -> Result<(Boxed<FromTree>, Boxed<FromTree>), NoMemory>
    ensures { IfOk result (λ p. (p.0 ≡ a) × (p.1 ≡ b)) }
{
    match (Boxed::new(alloc, a), Boxed::new(alloc, b)) {
        (Ok(a), Ok(b)) => Ok((a, b)),
        _ => Err(NoMemory),
    }
}

/// Two parts beside each other.
pub fn crossed(alloc: Global, near: Walked, far: Walked) -> Result<Walked, NoMemory>
    ensures { IfOk result (λ w. w ≡ record { relations = near.relations ++ far.relations; from = Cross near.from far.from }) }
{
    let (a, b) = boxed_two(alloc, near.from, far.from)?;
    Ok(Walked {
        relations: joined(near.relations, far.relations)?,
        from: FromTree::Cross(a, b),
    })
}

/// Two parts that an inner join joins.
pub fn joined_on(alloc: Global, near: Walked, far: Walked, on: &Cond) -> Result<Walked, NoMemory>
    ensures { IfOk result (λ w. w ≡ record { relations = near.relations ++ far.relations; from = Inner near.from far.from on.now }) }
{
    let (a, b) = boxed_two(alloc, near.from, far.from)?;
    let relations = joined(near.relations, far.relations)?;
    Ok(Walked {
        relations,
        from: FromTree::Inner(a, b, on.copy(alloc)?),
    })
}

/// Two parts that a LEFT JOIN joins, of which the second, `side`, is one relation from the column `start` on.
pub fn left_joined(
    alloc: Global,
    near: Walked,
    far: Walked,
    side: &FromTree,
    start: u64,
    on: &Cond,
) -> Result<Walked, NoMemory>
    ensures { IfOk result (λ w. w ≡ record { relations = near.relations ++ as_one side.now start far.relations; from = Left near.from far.from on.now }) }
{
    let (a, b) = boxed_two(alloc, near.from, far.from)?;
    let more = as_one_relation(alloc, side, start, far.relations)?;
    let relations = joined(near.relations, more)?;
    Ok(Walked {
        relations,
        from: FromTree::Left(a, b, on.copy(alloc)?),
    })
}
