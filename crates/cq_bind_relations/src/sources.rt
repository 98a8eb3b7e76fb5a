//! A relation of a FROM: a table or a CTE under its name or an alias, or a subquery.

ghost use Rattle.std.specs.Prelude.{◌≡◌};
ghost use Rattle.cq_reading.specs.Outcomes.{Binds};
ghost use Rattle.cq_reading.specs.Walk.{select_of, relation_part};
ghost use Rattle.cq_bind_calls.specs.Parts.{RelationParts};
ghost use Rattle.cq_bind_relations.specs.Joins as joins;

use cq_bind_calls::Nested;
use cq_bind_names::{check_one_more, subquery_relation, table_relation};
use cq_grammar::{Name, Relation, Select};
use cq_reading::{BindError, Found, Relations, World};
use cq_value::Text;

/// A subquery under an alias, behind relations of these names.
fn derived<N: Nested>(
    nested: &N,
    found: &mut Found,
    select: &Select,
    alias: &Name,
    world: &World<'_>,
    names: &[Text],
) -> Result<Relations, BindError>
    requires { N.may_select nested.now select.now }
    ensures { Binds (joins.subquery_reading (select_of select.now) alias.now world.now names.now found.old) result found.new }
{
    check_one_more(names)?;
    let block = nested.select(found, select, world)?;
    subquery_relation(world.alloc, alias, names, block)
}

/// A relation behind those of these names.
#[tactic(auto, using(cq_bind_looks::proofs::Looks::looks_of_selects))]
pub fn relation_of<N: Nested>(
    nested: &N,
    found: &mut Found,
    relation: &Relation,
    world: &World<'_>,
    names: &[Text],
) -> Result<Relations, BindError>
    requires { RelationParts (N.may_select nested.now) relation.now }
    ensures { Binds (relation_part relation.now world.now names.now found.old) result found.new }
{
    match relation {
        Relation::Table { name } => table_relation(world, name, name, names),
        Relation::TableAs { name, alias, .. } => table_relation(world, name, alias, names),
        Relation::Subquery { select, alias, .. } => {
            derived(nested, found, select.get(), alias, world, names)
        }
    }
}
