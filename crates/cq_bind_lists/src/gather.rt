//! The outputs that the items of a select list stand for, gone through in turn.

ghost use Rattle.std.specs.Prelude.{◌≡◌, map};
ghost use Rattle.std.specs.List.{All};
ghost use Rattle.cq_grammar.specs.declared.expr.Expr.{Expr as TheExpr};
ghost use Rattle.cq_reading.specs.Steps as reading;
ghost use Rattle.cq_reading.specs.Steps.{Reading};
ghost use Rattle.cq_reading.specs.Outcomes.{Binds, Judges};
ghost use Rattle.cq_reading.specs.Scopes as scopes;
ghost use Rattle.cq_reading.specs.Scopes.{Context};
ghost use Rattle.cq_reading.specs.Selects as spec;
ghost use Rattle.cq_reading.specs.Selects.{Target};
ghost use Rattle.cq_reading.specs.Walk.{part_of, item_part};
ghost use Rattle.cq_bind_calls.specs.Parts.{ItemParts};
ghost use Rattle.cq_bind_lists.specs.Stars as stars;

use crate::stars::{Star, is_meant, is_there};
use cq_bind_calls::{Step, through_of};
use cq_grammar::{Expr, Item, Name};
use cq_reading::{BindError, Found, Scope, Source};
use cq_value::Items;

/// What is made of outputs, one after the other.
pub trait Gather {
    type State;

    ghost step: { Self → Context → Self.State → Target → Reading Self.State };

    ghost may_read: { Self → TheExpr → Type 0 };

    /// A column that `*` stands for.
    fn star(
        &self,
        scope: &Scope<'_>,
        before: Self::State,
        at: u64,
        place: usize,
        column: &Source,
    ) -> Result<Self::State, BindError>
        ensures { Judges (step self.now scope.now before (spec.star_column at place column.now)) result };

    /// `relation.*` of a relation that isn't there.
    fn missing(
        &self,
        scope: &Scope<'_>,
        before: Self::State,
        at: u64,
    ) -> Result<Self::State, BindError>
        ensures { Judges (step self.now scope.now before (spec.no_relation at)) result };

    /// A value, under its alias if it has one.
    fn value(
        &self,
        found: &mut Found,
        scope: &Scope<'_>,
        before: Self::State,
        value: &Expr,
        alias: &Option<Name>,
    ) -> Result<Self::State, BindError>
        requires { may_read self.now value.now }
        ensures { Binds (step self.now scope.now before (stars.value_target (part_of value.now) (stars.alias_of alias.now)) found.old) result found.new };
}

/// A column, if the `*` stands for it.
fn star_if<G: Gather>(
    gather: &G,
    scope: &Scope<'_>,
    before: G::State,
    star: Star<'_>,
    at: u64,
    place: usize,
    column: &Source,
) -> Result<G::State, BindError>
    ensures { Judges (stars.target_if (G.step gather.now scope.now) at (stars.meant star.entry column.now) before place column.now) result }
{
    if is_meant(star, column) {
        gather.star(scope, before, at, place, column)
    } else {
        Ok(before)
    }
}

fn stars_among<G: Gather>(
    gather: &G,
    scope: &Scope<'_>,
    before: G::State,
    star: Star<'_>,
    at: u64,
    columns: &[Source],
) -> Result<G::State, BindError>
    ensures { Judges (reading.through (G.step gather.now scope.now) (spec.star_columns at (stars.meant star.entry) 0 columns.now) before) result }
{
    let mut state = before;
    'columns: for (place, column) in columns.iter().enumerate() {
        state = star_if(gather, scope, state, star, at, place, column)?;
    }
    Ok(state)
}

/// The columns in reach that a `*` stands for.
fn stars<G: Gather>(
    gather: &G,
    scope: &Scope<'_>,
    before: G::State,
    star: Star<'_>,
    at: u64,
) -> Result<G::State, BindError>
    ensures { Judges (reading.through (G.step gather.now scope.now) (spec.star_columns at (stars.meant star.entry) 0 scope.now.columns) before) result }
{
    stars_among(gather, scope, before, star, at, scope.columns)
}

/// The columns that `relation.*` stands for.
fn relation_stars<G: Gather>(
    gather: &G,
    scope: &Scope<'_>,
    before: G::State,
    relation: &Name,
) -> Result<G::State, BindError>
    ensures { Judges (reading.through (G.step gather.now scope.now) (spec.stars_of relation.now.at (scopes.is_of relation.now.text) scope.now.columns) before) result }
{
    if is_there(scope, &relation.text) {
        stars(gather, scope, before, Star::Of(&relation.text), relation.at)
    } else {
        gather.missing(scope, before, relation.at)
    }
}

/// The outputs of an item.
#[derive(Drop)]
struct EachItem<'a, G> {
    gather: &'a G,
    scope: &'a Scope<'a>,
}

impl<'a, G: Gather> Step for EachItem<'a, G> {
    type State = G::State;

    type Item = Item;

    ghost reading = { λ s before item. reading.through (G.step s.gather.now s.scope.now) (spec.targets_of s.scope.now.columns (item_part item)) before };

    ghost callable = { λ s item. ItemParts (G.may_read s.gather.now) item };

    fn step(
        &self,
        found: &mut Found,
        before: G::State,
        item: &Item,
    ) -> Result<G::State, BindError> {
        match item {
            Item::All { at } => stars(self.gather, self.scope, before, Star::All, *at),
            Item::AllOf { relation } => relation_stars(self.gather, self.scope, before, relation),
            Item::Value { value, name } => {
                self.gather.value(found, self.scope, before, value, name)
            }
        }
    }
}

/// What is made of the outputs of all items, from `first` on.
pub fn gather_all<G: Gather>(
    gather: &G,
    found: &mut Found,
    scope: &Scope<'_>,
    items: &Items<Item>,
    first: G::State,
) -> Result<G::State, BindError>
    requires callable { All (ItemParts (G.may_read gather.now)) items.now }
    ensures { Binds (reading.through (G.step gather.now scope.now) (spec.targets scope.now.columns (map item_part items.now)) first found.old) result found.new }
{
    through_of(&EachItem { gather, scope }, found, items, first)
}
