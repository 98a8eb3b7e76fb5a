ghost use Rattle.std.specs.Prelude.{◌≡◌, ◌++◌, ◌-◌, IfOk, OnOk};
ghost use Rattle.cq_planning.specs.Touched.{numbers};
ghost use Rattle.cq_outline.specs.Joining.{alone as alone_by_rule};

use cq_relations::{Distribution, Relation};
use cq_value::{NoMemory, Positions};
use std::alloc::Global;
use std::marker::Model;

/// Distributed relations that are co-located: the distribution column of the first, and the columns of all.
#[derive(Debug, Drop)]
pub struct Component {
    pub home: Distribution,
    pub columns: Positions,
}

impl Model for Component {
    ghost use Rattle.cq_outline.specs.Joining as rules;
    ghost use Rattle.cq_strategies.specs.Components.{component_code};

    ghost Value = { rules.Component };

    ghost coded = { component_code };

    ghost view = { λ p. record { home = p.home; columns = p.columns } };
}

/// The number of a column. One past 2^32 is of a FROM that no memory holds.
pub fn few(column: u64) -> Result<u32, NoMemory>
    ensures { IfOk result (λ n. n ≡ column) }
{
    match u32::try_from(column) {
        Ok(n) => Ok(n),
        Err(_) => Err(NoMemory),
    }
}

/// The columns from `start` on and before `end`.
fn columns_between(alloc: Global, start: u32, end: u32) -> Result<Positions, NoMemory>
    ensures { IfOk result (λ v. v ≡ numbers start (end - start)) }
{
    let mut columns = Positions::new(alloc);
    for column in start..end {
        columns.put(column)?;
    }
    Ok(columns)
}

/// A relation alone, whose columns end before `end`.
pub fn alone(alloc: Global, relation: &Relation, end: u64) -> Result<Component, NoMemory>
    ensures { IfOk result (λ p. p ≡ alone_by_rule relation.now end) }
{
    let columns = columns_between(alloc, few(relation.start)?, few(end)?)?;
    Ok(Component {
        home: relation.distribution(),
        columns,
    })
}

/// Puts columns last.
pub fn put_columns(columns: &mut Positions, more: Positions) -> Result<(), NoMemory>
    ensures { OnOk result (columns.new ≡ columns.old ++ more) }
{
    for column in more.into_vec() {
        columns.put(column)?;
    }
    Ok(())
}
