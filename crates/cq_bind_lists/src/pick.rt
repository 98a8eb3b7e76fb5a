//! The outputs of a name, and the output of a place.

ghost use Rattle.std.specs.Prelude.{◌≡◌, bytes_eq, map, IfOk};
ghost use Rattle.std.specs.List.{All};
ghost use Rattle.cq_reading.specs.Steps as reading;
ghost use Rattle.cq_reading.specs.Outcomes.{Binds, Judges};
ghost use Rattle.cq_reading.specs.Selects as spec;
ghost use Rattle.cq_reading.specs.Walk.{part_of, item_part};
ghost use Rattle.cq_bind_calls.specs.Parts.{ItemParts};
ghost use Rattle.cq_bind_lists.specs.Stars as stars;
ghost use Rattle.cq_bind_lists.specs.Picks as picks;

use crate::gather::{Gather, gather_all};
use crate::stars::star_value;
use crate::values::{put, title_of, value};
use cq_bind_calls::{Nested, alloc_of};
use cq_grammar::{Expr, Item, Name};
use cq_reading::{BindError, Bound, Found, Scope, Source};
use cq_value::{Items, NoMemory, Text};
use std::alloc::Global;

fn is_titled(column: &Source, name: &Text) -> bool
    ensures { result ≡ bytes_eq column.now.name name.now }
{
    column.name.as_str() == name.as_str()
}

/// Whether an output has a name.
fn has_title(
    alloc: Global,
    value: &Expr,
    alias: &Option<Name>,
    name: &Text,
) -> Result<bool, NoMemory>
    ensures { IfOk result (λ b. b ≡ bytes_eq (spec.title_by (stars.alias_of alias.now) (part_of value.now).title) name.now) }
{
    let title = title_of(alloc, value, alias)?;
    Ok(title.as_str() == name.as_str())
}

fn star_behind(
    scope: &Scope<'_>,
    at: u64,
    before: Items<Bound>,
    place: usize,
    column: &Source,
) -> Result<Items<Bound>, BindError>
    ensures { Judges (reading.with_next (picks.target_value scope.now) before (spec.star_column at place column.now)) result }
{
    let b = star_value(scope, at, place)?;
    Ok(put(before, b)?)
}

/// The outputs of a name.
#[derive(Drop)]
struct OutputsNamed<'a, N> {
    nested: &'a N,
    name: &'a Text,
}

impl<'a, N: Nested> Gather for OutputsNamed<'a, N> {
    type State = Items<Bound>;

    ghost step = { λ s cx. picks.with_titled cx s.name.now };

    ghost may_read = { λ s e. N.may_read s.nested.now e };

    fn star(
        &self,
        scope: &Scope<'_>,
        before: Items<Bound>,
        at: u64,
        place: usize,
        column: &Source,
    ) -> Result<Items<Bound>, BindError> {
        if is_titled(column, self.name) {
            star_behind(scope, at, before, place, column)
        } else {
            Ok(before)
        }
    }

    fn missing(
        &self,
        _scope: &Scope<'_>,
        before: Items<Bound>,
        at: u64,
    ) -> Result<Items<Bound>, BindError> {
        if "" == self.name.as_str() {
            Err(BindError::Unknown { at })
        } else {
            Ok(before)
        }
    }

    fn value(
        &self,
        found: &mut Found,
        scope: &Scope<'_>,
        before: Items<Bound>,
        expr: &Expr,
        alias: &Option<Name>,
    ) -> Result<Items<Bound>, BindError> {
        if has_title(alloc_of(scope), expr, alias, self.name)? {
            let b = value(self.nested, found, expr, scope)?;
            Ok(put(before, b)?)
        } else {
            Ok(before)
        }
    }
}

/// What the outputs of a name are read as.
pub fn outputs_named<N: Nested>(
    nested: &N,
    found: &mut Found,
    name: &Text,
    items: &Items<Item>,
    scope: &Scope<'_>,
) -> Result<Items<Bound>, BindError>
    requires { All (ItemParts (N.may_read nested.now)) items.now }
    ensures { Binds (reading.each (picks.target_value scope.now) (spec.titled name.now (spec.targets scope.now.columns (map item_part items.now))) found.old) result found.new }
{
    let none = Items::new(alloc_of(scope));
    gather_all(&OutputsNamed { nested, name }, found, scope, items, none)
}

/// How many outputs are to be skipped before the one of a place, or what that one is.
#[derive(Drop)]
pub enum Pick {
    Skip(u64),
    Got(Bound),
}

fn first_star(scope: &Scope<'_>, at: u64, place: usize, column: &Source) -> Result<Pick, BindError>
    ensures { Judges (picks.first_pick scope.now (spec.star_column at place column.now)) result }
{
    let b = star_value(scope, at, place)?;
    Ok(Pick::Got(b))
}

fn first_value<N: Nested>(
    nested: &N,
    found: &mut Found,
    e: &Expr,
    alias: &Option<Name>,
    scope: &Scope<'_>,
) -> Result<Pick, BindError>
    requires { N.may_read nested.now e.now }
    ensures { Binds (picks.first_pick scope.now (stars.value_target (part_of e.now) (stars.alias_of alias.now)) found.old) result found.new }
{
    let b = value(nested, found, e, scope)?;
    Ok(Pick::Got(b))
}

/// The output of a place.
#[derive(Drop)]
struct OutputAt<'a, N> {
    nested: &'a N,
}

impl<'a, N: Nested> Gather for OutputAt<'a, N> {
    type State = Pick;

    ghost step = { λ s cx. picks.picked cx };

    ghost may_read = { λ s e. N.may_read s.nested.now e };

    fn star(
        &self,
        scope: &Scope<'_>,
        before: Pick,
        at: u64,
        place: usize,
        column: &Source,
    ) -> Result<Pick, BindError> {
        match before {
            Pick::Got(b) => Ok(Pick::Got(b)),
            Pick::Skip(0) => first_star(scope, at, place, column),
            Pick::Skip(n) => Ok(Pick::Skip(n - 1)),
        }
    }

    fn missing(&self, _scope: &Scope<'_>, before: Pick, at: u64) -> Result<Pick, BindError> {
        match before {
            Pick::Got(b) => Ok(Pick::Got(b)),
            Pick::Skip(0) => Err(BindError::Unknown { at }),
            Pick::Skip(n) => Ok(Pick::Skip(n - 1)),
        }
    }

    fn value(
        &self,
        found: &mut Found,
        scope: &Scope<'_>,
        before: Pick,
        value: &Expr,
        alias: &Option<Name>,
    ) -> Result<Pick, BindError> {
        match before {
            Pick::Got(b) => Ok(Pick::Got(b)),
            Pick::Skip(0) => first_value(self.nested, found, value, alias, scope),
            Pick::Skip(n) => Ok(Pick::Skip(n - 1)),
        }
    }
}

fn picked<N: Nested>(
    nested: &N,
    found: &mut Found,
    n: u64,
    items: &Items<Item>,
    scope: &Scope<'_>,
) -> Result<Pick, BindError>
    requires { All (ItemParts (N.may_read nested.now)) items.now }
    ensures { Binds (reading.through (picks.picked scope.now) (spec.targets scope.now.columns (map item_part items.now)) (picks.skipping n) found.old) result found.new }
{
    gather_all(&OutputAt { nested }, found, scope, items, Pick::Skip(n))
}

fn the_pick(pick: Pick, at: u64) -> Result<Bound, BindError>
    ensures { Judges (picks.the_pick at pick) result }
{
    match pick {
        Pick::Got(b) => Ok(b),
        Pick::Skip(_) => Err(BindError::Unknown { at }),
    }
}

/// What the output of a place is read as, which counts from 1. `Err`: 12 where there is none.
pub fn output_at<N: Nested>(
    nested: &N,
    found: &mut Found,
    n: u64,
    at: u64,
    items: &Items<Item>,
    scope: &Scope<'_>,
) -> Result<Bound, BindError>
    requires { All (ItemParts (N.may_read nested.now)) items.now }
    ensures { Binds (spec.key_by_place scope.now (spec.nth n (spec.targets scope.now.columns (map item_part items.now))) at found.old) result found.new }
{
    if n == 0 {
        return Err(BindError::Unknown { at });
    }
    let pick = picked(nested, found, n - 1, items, scope)?;
    the_pick(pick, at)
}
