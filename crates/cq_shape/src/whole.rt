ghost use Rattle.std.specs.Prelude.{◌≡◌, ◌++◌, IfOk, OnOk};
ghost use Rattle.cq_planning.specs.Conjuncts.{conjuncts_of, equalities};
ghost use Rattle.cq_planning.specs.Classes.{first_of_class};
ghost use Rattle.cq_planning.specs.ValueSets.{sets_said};
ghost use Rattle.cq_shape.specs.Labels.{label};

use crate::conjuncts::{put_equalities, put_inner_equalities};
use crate::labels::labels_of;
use crate::said::{Said, put_inner_said, put_said};
use cq_tree::{Cond, FromTree};
use cq_value::{Items, NoMemory, Positions};
use std::alloc::Global;

/// The equalities of columns among the conjuncts of a FROM and a WHERE.
#[tactic(auto, using(crate::proofs::Nodes::equalities_whole))]
pub fn equalities_in(
    alloc: Global,
    from: &FromTree,
    filter: &Cond,
) -> Result<Items<(u32, u32)>, NoMemory>
    ensures { IfOk result (λ pairs. pairs ≡ equalities (conjuncts_of filter.now from.now)) }
{
    let mut pairs = Items::new(alloc);
    put_equalities(&mut pairs, filter)?;
    put_inner_equalities(&mut pairs, from)?;
    Ok(pairs)
}

/// The first column of the class of each column that the conjuncts of a FROM and a WHERE speak of.
pub fn labels_in(alloc: Global, from: &FromTree, filter: &Cond) -> Result<Positions, NoMemory>
    ensures { IfOk result (λ labels. label labels ≡ first_of_class (equalities (conjuncts_of filter.now from.now))) }
{
    let pairs = equalities_in(alloc, from, filter)?;
    labels_of(alloc, pairs.as_slice())
}

/// Puts what the conjuncts of a FROM and a WHERE say of columns last.
#[tactic(auto, using(crate::proofs::Nodes::said_whole))]
pub fn put_all_said(
    alloc: Global,
    sets: &mut Items<Said>,
    from: &FromTree,
    filter: &Cond,
) -> Result<(), NoMemory>
    ensures { OnOk result (sets.new ≡ sets.old ++ sets_said (conjuncts_of filter.now from.now)) }
{
    put_said(alloc, sets, filter)?;
    put_inner_said(alloc, sets, from)
}
