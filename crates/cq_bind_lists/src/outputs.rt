//! The select list: what its items stand for, in turn, and at most 512 outputs.

ghost use Rattle.std.specs.Prelude.{◌≡◌, map};
ghost use Rattle.std.specs.List.{All};
ghost use Rattle.cq_reading.specs.declared.error.Limited.TheVariants as limited;
ghost use Rattle.cq_reading.specs.Outcomes.{Binds, Judges};
ghost use Rattle.cq_reading.specs.Selects as spec;
ghost use Rattle.cq_reading.specs.Walk.{part_of, item_part};
ghost use Rattle.cq_bind_calls.specs.Parts.{ItemParts};
ghost use Rattle.cq_bind_lists.specs.Stars as stars;

use crate::gather::{Gather, gather_all};
use crate::stars::star_value;
use crate::values::{check_number, put, title_of, value};
use cq_bind_calls::{Nested, alloc_of};
use cq_grammar::{Expr, Item, Name};
use cq_reading::{BindError, Found, Limited, Scope, Shown, ShownList, Source};
use cq_value::Items;

fn star_shown(scope: &Scope<'_>, at: u64, place: usize, column: &Source) -> Result<Shown, BindError>
    ensures { Judges (spec.read_target scope.now (spec.star_column at place column.now)) result }
{
    let title = column.name.copy(alloc_of(scope))?;
    let bound = star_value(scope, at, place)?;
    Ok(Shown { title, bound })
}

fn shown<N: Nested>(
    nested: &N,
    found: &mut Found,
    e: &Expr,
    alias: &Option<Name>,
    scope: &Scope<'_>,
) -> Result<Shown, BindError>
    requires { N.may_read nested.now e.now }
    ensures { Binds (spec.read_target scope.now (stars.value_target (part_of e.now) (stars.alias_of alias.now)) found.old) result found.new }
{
    let title = title_of(alloc_of(scope), e, alias)?;
    let bound = value(nested, found, e, scope)?;
    Ok(Shown { title, bound })
}

/// All outputs, bound.
#[derive(Drop)]
struct AllOutputs<'a, N> {
    nested: &'a N,
}

impl<'a, N: Nested> Gather for AllOutputs<'a, N> {
    type State = ShownList;

    ghost step = { λ s cx. stars.with_output cx };

    ghost may_read = { λ s e. N.may_read s.nested.now e };

    fn star(
        &self,
        scope: &Scope<'_>,
        before: ShownList,
        at: u64,
        place: usize,
        column: &Source,
    ) -> Result<ShownList, BindError> {
        check_number(&before, 512, Limited::Outputs)?;
        let shown = star_shown(scope, at, place, column)?;
        Ok(put(before, shown)?)
    }

    fn missing(
        &self,
        _scope: &Scope<'_>,
        before: ShownList,
        at: u64,
    ) -> Result<ShownList, BindError> {
        check_number(&before, 512, Limited::Outputs)?;
        Err(BindError::Unknown { at })
    }

    fn value(
        &self,
        found: &mut Found,
        scope: &Scope<'_>,
        before: ShownList,
        value: &Expr,
        alias: &Option<Name>,
    ) -> Result<ShownList, BindError> {
        check_number(&before, 512, Limited::Outputs)?;
        let shown = shown(self.nested, found, value, alias, scope)?;
        Ok(put(before, shown)?)
    }
}

/// The outputs of a select list. `Err` is the first refusal in it, 33 where they are more than 512, or want of memory.
pub fn select_list<N: Nested>(
    nested: &N,
    found: &mut Found,
    items: &Items<Item>,
    scope: &Scope<'_>,
) -> Result<ShownList, BindError>
    requires { All (ItemParts (N.may_read nested.now)) items.now }
    ensures { Binds (spec.at_most 512 limited.Outputs (spec.read_target scope.now) (spec.targets scope.now.columns (map item_part items.now)) found.old) result found.new }
{
    let none = ShownList::new(alloc_of(scope));
    gather_all(&AllOutputs { nested }, found, scope, items, none)
}
