//! GROUP BY, of which a key may be the place or the name of an output.

ghost use Rattle.std.specs.Prelude.{◌≡◌, Some, position, map, IfSome};
ghost use Rattle.std.specs.List.{All};
ghost use Rattle.std.specs.Option.{option_map};
ghost use Rattle.cq_reading.specs.declared.error.Limited.TheVariants as limited;
ghost use Rattle.cq_reading.specs.Outcomes.{Binds};
ghost use Rattle.cq_reading.specs.Scopes as scopes;
ghost use Rattle.cq_reading.specs.Selects as spec;
ghost use Rattle.cq_reading.specs.Walk.{part_of, item_part, group_part};
ghost use Rattle.cq_bind_calls.specs.Parts.{GroupParts, ItemParts};

use crate::pick::{output_at, outputs_named};
use crate::values::{check_number, put, value};
use cq_bind_calls::{Nested, Step, alloc_of, through_of};
use cq_bind_looks::{Form, form, place};
use cq_bind_names::one_of;
use cq_bind_operands as operands;
use cq_grammar::{Expr, GroupBy, Item};
use cq_reading::{BindError, Bound, Found, Limited, Scope, Source};
use cq_tree::{Expr as Tree, Exprs};
use cq_value::{Items, Text};

fn place_named(name: &Text, columns: &[Source]) -> Option<usize>
    ensures { result ≡ position (scopes.has_name name.now) columns.now }
{
    columns
        .iter()
        .position(|column| column.name.as_str() == name.as_str())
}

/// The place of the first column of a name in reach.
fn first_named(scope: &Scope<'_>, name: &Text) -> Option<usize>
    ensures { result ≡ position (scopes.has_name name.now) scope.now.columns }
{
    place_named(name, scope.columns)
}

fn key_by_title<N: Nested>(
    nested: &N,
    found: &mut Found,
    name: &Text,
    at: u64,
    items: &Items<Item>,
    scope: &Scope<'_>,
) -> Result<Bound, BindError>
    requires { All (ItemParts (N.may_read nested.now)) items.now }
    ensures { Binds (spec.key_by_title scope.now (spec.targets scope.now.columns (map item_part items.now)) name.now at found.old) result found.new }
{
    let bounds = outputs_named(nested, found, name, items, scope)?;
    one_of(at, bounds)
}

/// A key that is a bare name: an input column comes before an output.
fn key_by_name<N: Nested>(
    nested: &N,
    found: &mut Found,
    key: &Expr,
    name: &Text,
    items: &Items<Item>,
    scope: &Scope<'_>,
) -> Result<Bound, BindError>
    requires key { N.may_read nested.now key.now }
    requires items { All (ItemParts (N.may_read nested.now)) items.now }
    ensures { Binds (spec.key_by_name scope.now (spec.targets scope.now.columns (map item_part items.now)) (part_of key.now) name.now (scopes.place_of (scopes.has_name name.now) scope.now.columns) found.old) result found.new }
{
    match first_named(scope, name) {
        Some(_) => nested.expr(found, key, scope),
        None => key_by_title(nested, found, name, place(key), items, scope),
    }
}

fn key_value<N: Nested>(
    nested: &N,
    found: &mut Found,
    key: &Expr,
    items: &Items<Item>,
    scope: &Scope<'_>,
) -> Result<Bound, BindError>
    requires key { N.may_read nested.now key.now }
    requires items { All (ItemParts (N.may_read nested.now)) items.now }
    ensures { Binds (spec.group_key_by scope.now (spec.targets scope.now.columns (map item_part items.now)) (part_of key.now) (part_of key.now).form found.old) result found.new }
{
    match form(key) {
        Form::Number(n) => output_at(nested, found, n, place(key), items, scope),
        Form::Name(name) => key_by_name(nested, found, key, name, items, scope),
        Form::Signed(..) | Form::Other => value(nested, found, key, scope),
    }
}

fn group_key<N: Nested>(
    nested: &N,
    found: &mut Found,
    key: &Expr,
    items: &Items<Item>,
    scope: &Scope<'_>,
) -> Result<Tree, BindError>
    requires key { N.may_read nested.now key.now }
    requires items { All (ItemParts (N.may_read nested.now)) items.now }
    ensures { Binds (spec.group_key scope.now (spec.targets scope.now.columns (map item_part items.now)) (part_of key.now) found.old) result found.new }
{
    let b = key_value(nested, found, key, items, scope)?;
    Ok(operands::expr(b))
}

/// The keys, of which there are at most 16.
#[derive(Drop)]
struct GroupKeys<'a, N> {
    nested: &'a N,
    items: &'a Items<Item>,
    scope: &'a Scope<'a>,
}

impl<'a, N: Nested> Step for GroupKeys<'a, N> {
    type State = Exprs;

    type Item = Expr;

    ghost reading = { λ s before key. spec.with_one_more 16 limited.Keys (λ e. spec.group_key s.scope.now (spec.targets s.scope.now.columns (map item_part s.items.now)) (part_of e)) before key };

    ghost callable = { λ s key. N.may_read s.nested.now key × All (ItemParts (N.may_read s.nested.now)) s.items.now };

    fn step(&self, found: &mut Found, before: Exprs, key: &Expr) -> Result<Exprs, BindError> {
        check_number(&before, 16, Limited::Keys)?;
        let tree = group_key(self.nested, found, key, self.items, self.scope)?;
        Ok(put(before, tree)?)
    }
}

fn group_by<N: Nested>(
    nested: &N,
    found: &mut Found,
    groups: &GroupBy,
    items: &Items<Item>,
    scope: &Scope<'_>,
) -> Result<Exprs, BindError>
    requires groups { GroupParts (N.may_read nested.now) groups.now }
    requires items { All (ItemParts (N.may_read nested.now)) items.now }
    ensures { Binds (spec.group_keys scope.now (spec.targets scope.now.columns (map item_part items.now)) scope.now.joined (Some (group_part groups.now)) found.old) result found.new }
{
    if scope.joined {
        return Err(BindError::GroupedJoin { at: groups.at });
    }
    let step = GroupKeys {
        nested,
        items,
        scope,
    };
    through_of(&step, found, &groups.keys, Exprs::new(alloc_of(scope)))
}

/// The keys of GROUP BY, of a SELECT of these items. `Err` is the first refusal in it, 19 over more than one relation, 33 where there
/// are more than 16, or want of memory.
pub fn group_keys<N: Nested>(
    nested: &N,
    found: &mut Found,
    groups: &Option<GroupBy>,
    items: &Items<Item>,
    scope: &Scope<'_>,
) -> Result<Exprs, BindError>
    requires groups { IfSome groups.now (GroupParts (N.may_read nested.now)) }
    requires items { All (ItemParts (N.may_read nested.now)) items.now }
    ensures { Binds (spec.group_keys scope.now (spec.targets scope.now.columns (map item_part items.now)) scope.now.joined (option_map group_part groups.now) found.old) result found.new }
{
    match groups {
        Some(groups) => group_by(nested, found, groups, items, scope),
        None => Ok(Exprs::new(alloc_of(scope))),
    }
}
