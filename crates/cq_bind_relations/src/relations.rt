//! The relations of a FROM, from left to right, each ON at its join.

ghost use Rattle.std.specs.Prelude.{◌≡◌, [], ◌∷◌, ◌++◌, map, length, MatchResult};
ghost use Rattle.std.specs.List.{All};
ghost use Rattle.cq_reading.specs.declared.error.BindError.TheVariants.{Memory};
ghost use Rattle.cq_reading.specs.Outcomes.{Binds};
ghost use Rattle.cq_reading.specs.Relations as relation;
ghost use Rattle.cq_reading.specs.Walk.{from_part};
ghost use Rattle.cq_bind_calls.specs.Parts.{FromParts};

use crate::joins::Joined;
use crate::sources::relation_of;
use cq_bind_calls::{Nested, Step, through_all, through_of};
use cq_bind_names::{crossed, no_relations};
use cq_grammar::From;
use cq_reading::{BindError, Found, Relations, Source, World};
use cq_value::{Items, Names, Text, small};

/// How many columns there are, as trees have it. The only error is want of memory, where they are more than 4294967295.
fn how_many(columns: &[Source]) -> Result<u32, BindError>
    ensures { MatchResult result (λ n. n ≡ length columns.now) (λ e. e ≡ Memory) }
{
    Ok(small(columns.len() as u64)?)
}

/// A relation with its joins, behind those of these names and so many columns.
fn with_joins<N: Nested>(
    nested: &N,
    found: &mut Found,
    from: &From,
    world: &World<'_>,
    names: &[Text],
    first: u32,
) -> Result<Relations, BindError>
    requires { FromParts (N.may_read nested.now) (N.may_select nested.now) from.now }
    ensures { Binds (from_part from.now world.now names.now first found.old) result found.new }
{
    let relation = relation_of(nested, found, &from.first, world, names)?;
    let joined = Joined {
        nested,
        world,
        names,
        first,
    };
    through_of(&joined, found, &from.joins, relation)
}

fn from_behind<N: Nested>(
    nested: &N,
    found: &mut Found,
    from: &From,
    world: &World<'_>,
    a: &Relations,
) -> Result<Relations, BindError>
    requires { FromParts (N.may_read nested.now) (N.may_select nested.now) from.now }
    ensures { Binds (from_part from.now world.now a.now.names (length a.now.columns) found.old) result found.new }
{
    let first = how_many(a.columns.as_slice())?;
    with_joins(nested, found, from, world, a.names.as_slice(), first)
}

/// One more part of a FROM, behind a comma.
fn with_product<N: Nested>(
    nested: &N,
    found: &mut Found,
    a: Relations,
    from: &From,
    world: &World<'_>,
) -> Result<Relations, BindError>
    requires { FromParts (N.may_read nested.now) (N.may_select nested.now) from.now }
    ensures { Binds (relation.with_product world.now a (from_part from.now) found.old) result found.new }
{
    let b = from_behind(nested, found, from, world, &a)?;
    crossed(world.alloc, a, b)
}

/// The parts of a FROM behind its first one.
#[derive(Drop)]
struct Products<'a, N> {
    nested: &'a N,
    world: &'a World<'a>,
}

impl<'a, N: Nested> Step for Products<'a, N> {
    type State = Relations;

    type Item = From;

    ghost reading = { λ s a from. relation.with_product s.world.now a (from_part from) };

    ghost callable = { λ s from. FromParts (N.may_read s.nested.now) (N.may_select s.nested.now) from };

    fn step(
        &self,
        found: &mut Found,
        before: Relations,
        item: &From,
    ) -> Result<Relations, BindError> {
        with_product(self.nested, found, before, item, self.world)
    }
}

fn first_from<N: Nested>(
    nested: &N,
    found: &mut Found,
    from: &From,
    world: &World<'_>,
) -> Result<Relations, BindError>
    requires { FromParts (N.may_read nested.now) (N.may_select nested.now) from.now }
    ensures { Binds (from_part from.now world.now [] 0 found.old) result found.new }
{
    let names = Names::new(world.alloc);
    with_joins(nested, found, from, world, names.as_slice(), 0)
}

/// A FROM of one part and of more behind it.
fn froms<N: Nested>(
    nested: &N,
    found: &mut Found,
    first: &From,
    more: &[From],
    world: &World<'_>,
) -> Result<Relations, BindError>
    requires first { FromParts (N.may_read nested.now) (N.may_select nested.now) first.now }
    requires more { All (FromParts (N.may_read nested.now) (N.may_select nested.now)) more.now }
    ensures { Binds (relation.from_of world.now (from_part first.now ∷ map from_part more.now) found.old) result found.new }
{
    let first = first_from(nested, found, first, world)?;
    through_all(&Products { nested, world }, found, more, first)
}

/// The relations of a FROM. `Err` is the first refusal in it, or want of memory.
pub fn relations_of<N: Nested>(
    nested: &N,
    found: &mut Found,
    from: &Items<From>,
    world: &World<'_>,
) -> Result<Relations, BindError>
    requires { All (FromParts (N.may_read nested.now) (N.may_select nested.now)) from.now }
    ensures { Binds (relation.from_of world.now (map from_part from.now) found.old) result found.new }
{
    match from.as_slice() {
        [] => Ok(no_relations(world.alloc)),
        [first, more @ ..] => froms(nested, found, first, more, world),
    }
}
