//! The joins of a FROM: each a relation that is joined to those before it, and its ON.

ghost use Rattle.std.specs.Prelude.{◌≡◌, ◌++◌};
ghost use Rattle.cq_tree.specs.declared.query.FromTree.{Inner, Left};
ghost use Rattle.cq_reading.specs.Outcomes.{Binds};
ghost use Rattle.cq_reading.specs.Relations as relation;
ghost use Rattle.cq_reading.specs.Walk.{part_of, relation_part, join_part};
ghost use Rattle.cq_bind_calls.specs.Parts.{JoinParts, RelationParts};
ghost use Rattle.cq_bind_relations.specs.Joins as joins;

use crate::clauses::condition;
use crate::sources::relation_of;
use cq_bind_calls::{Nested, Step};
use cq_bind_names::{all_names, crossed, joined_inner, joined_left, reached};
use cq_grammar::{Expr, Join, Relation};
use cq_reading::{BindError, Found, Relations, Scope, Source, World};
use cq_tree::Cond;
use cq_value::Text;

/// What an ON stands in.
fn on_scope<'a>(world: &'a World<'a>, first: u32, columns: &'a [Source]) -> Scope<'a>
    ensures { result ≡ relation.on_context world.now first columns.now }
{
    Scope {
        world,
        first,
        columns,
        grouped: false,
        keys: &[],
        joined: false,
        may_aggregate: false,
        may_select: false,
    }
}

/// A relation behind those of these names and of `a`.
fn beside<N: Nested>(
    nested: &N,
    found: &mut Found,
    relation: &Relation,
    world: &World<'_>,
    names: &[Text],
    a: &Relations,
) -> Result<Relations, BindError>
    requires { RelationParts (N.may_select nested.now) relation.now }
    ensures { Binds (relation_part relation.now world.now (names.now ++ a.now.names) found.old) result found.new }
{
    let names = all_names(world.alloc, names, a)?;
    relation_of(nested, found, relation, world, names.as_slice())
}

/// The ON of a join of `a` and `b`, of which the first column is the column `first` of the FROM.
fn on_of<N: Nested>(
    nested: &N,
    found: &mut Found,
    on: &Expr,
    world: &World<'_>,
    first: u32,
    a: &Relations,
    b: &Relations,
) -> Result<Cond, BindError>
    requires { N.may_read nested.now on.now }
    ensures { Binds (relation.condition_of (part_of on.now) (relation.on_context world.now first (a.now.columns ++ b.now.columns)) found.old) result found.new }
{
    let columns = reached(world.alloc, a, b)?;
    condition(
        nested,
        found,
        on,
        &on_scope(world, first, columns.as_slice()),
    )
}

/// The joins behind a relation, and where they stand: behind relations of these names and so many columns.
#[derive(Drop)]
pub struct Joined<'a, N> {
    pub nested: &'a N,
    pub world: &'a World<'a>,
    pub names: &'a [Text],
    pub first: u32,
}

impl<'a, N: Nested> Joined<'a, N> {
    fn inner(
        &self,
        found: &mut Found,
        a: Relations,
        relation: &Relation,
        on: &Expr,
    ) -> Result<Relations, BindError>
        requires relation { RelationParts (N.may_select self.now.nested.now) relation.now }
        requires on { N.may_read self.now.nested.now on.now }
        ensures { Binds (joins.joined_reading Inner (relation_part relation.now) (part_of on.now) self.now.world.now self.now.names.now self.now.first a found.old) result found.new }
    {
        let world = self.world;
        let b = beside(self.nested, found, relation, world, self.names, &a)?;
        let on = on_of(self.nested, found, on, world, self.first, &a, &b)?;
        joined_inner(world.alloc, a, b, on)
    }

    fn left(
        &self,
        found: &mut Found,
        a: Relations,
        relation: &Relation,
        on: &Expr,
    ) -> Result<Relations, BindError>
        requires relation { RelationParts (N.may_select self.now.nested.now) relation.now }
        requires on { N.may_read self.now.nested.now on.now }
        ensures { Binds (joins.joined_reading Left (relation_part relation.now) (part_of on.now) self.now.world.now self.now.names.now self.now.first a found.old) result found.new }
    {
        let world = self.world;
        let b = beside(self.nested, found, relation, world, self.names, &a)?;
        let on = on_of(self.nested, found, on, world, self.first, &a, &b)?;
        joined_left(world.alloc, a, b, on)
    }

    fn cross(
        &self,
        found: &mut Found,
        a: Relations,
        relation: &Relation,
    ) -> Result<Relations, BindError>
        requires { RelationParts (N.may_select self.now.nested.now) relation.now }
        ensures { Binds (joins.crossed_reading (relation_part relation.now) self.now.world.now self.now.names.now a found.old) result found.new }
    {
        let world = self.world;
        let b = beside(self.nested, found, relation, world, self.names, &a)?;
        crossed(world.alloc, a, b)
    }
}

impl<'a, N: Nested> Step for Joined<'a, N> {
    type State = Relations;

    type Item = Join;

    ghost reading = { λ s a join. relation.with_join s.world.now s.names.now s.first a (join_part join) };

    ghost callable = { λ s join. JoinParts (N.may_read s.nested.now) (N.may_select s.nested.now) join };

    #[tactic(auto, using(cq_bind_looks::proofs::Looks::looks_of_selects))]
    fn step(
        &self,
        found: &mut Found,
        before: Relations,
        item: &Join,
    ) -> Result<Relations, BindError> {
        match item {
            Join::Inner { relation, on, .. } => self.inner(found, before, relation, on),
            Join::Left { relation, on, .. } => self.left(found, before, relation, on),
            Join::Cross { relation, .. } => self.cross(found, before, relation),
        }
    }
}
