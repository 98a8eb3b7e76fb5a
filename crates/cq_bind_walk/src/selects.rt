//! A SELECT: FROM, WHERE, GROUP BY, HAVING, the select list, and ORDER BY.

ghost use Rattle.std.specs.Prelude.{◌≡◌, map, IfOk};
ghost use Rattle.std.specs.List.{All};
ghost use Rattle.cq_reading.specs.Outcomes.{Binds};
ghost use Rattle.cq_reading.specs.Selects as spec;
ghost use Rattle.cq_reading.specs.Walk as walk;
ghost use Rattle.cq_reading.specs.Walk.{select_of, item_part, order_part};
ghost use Rattle.cq_bind_names.specs.declared.blocks.Outer.{Outer};
ghost use Rattle.cq_bind_calls.specs.Parts.{ItemParts, OrderParts, SelectParts};
ghost use Rattle.cq_bind_walk.specs.Blocks as blocks;
ghost use Rattle.cq_bind_walk.specs.Blocks.{layer_of};

use crate::outputs::{count, names_of, outputs_of};
use cq_bind_calls::{Nested, alloc_of};
use cq_bind_lists::{group_keys, order_keys, select_list};
use cq_bind_looks::groups;
use cq_bind_names::{Outer, enter, leave, unordered};
use cq_bind_relations::{filtered, having_of, relations_of};
use cq_grammar::{Count, Item, OrderKey, Select};
use cq_reading::{BindError, Block, Found, Ordered, Relations, Scope, ShownList, World};
use cq_tree::{Cond, Exprs, Queries, Query};
use cq_value::{Items, NoMemory};
use std::alloc::Global;

/// The rows of a SELECT: its relations, WHERE, and the keys of GROUP BY.
#[derive(Drop)]
pub struct Rows {
    pub relations: Relations,
    pub filter: Cond,
    pub keys: Exprs,
}

/// What is made of the rows: HAVING, the outputs, and ORDER BY.
#[derive(Drop)]
pub struct Shape {
    pub having: Cond,
    pub outputs: ShownList,
    pub order: Ordered,
}

/// What WHERE and the keys of GROUP BY stand in.
fn scope_before<'a>(world: &'a World<'a>, relations: &'a Relations, may_select: bool) -> Scope<'a>
    ensures { result ≡ spec.before_grouping world.now relations.now may_select }
{
    Scope {
        world,
        first: 0,
        columns: relations.columns.as_slice(),
        grouped: false,
        keys: &[],
        joined: relations.joined,
        may_aggregate: false,
        may_select,
    }
}

/// What HAVING, the select list and ORDER BY stand in.
fn scope_after<'a>(
    world: &'a World<'a>,
    rows: &'a Rows,
    grouped: bool,
    may_select: bool,
) -> Scope<'a>
    ensures { result ≡ spec.after_grouping world.now rows.now.relations grouped rows.now.keys may_select }
{
    Scope {
        world,
        first: 0,
        columns: rows.relations.columns.as_slice(),
        grouped,
        keys: rows.keys.as_slice(),
        joined: rows.relations.joined,
        may_aggregate: true,
        may_select,
    }
}

fn limit_of(limit: &Option<Count>) -> Option<u64>
    ensures { result ≡ spec.limit_of limit.now }
{
    match limit {
        Some(count) => Some(count.value),
        None => None,
    }
}

fn offset_of(offset: &Option<Count>) -> u64
    ensures { result ≡ spec.offset_of offset.now }
{
    match offset {
        Some(count) => count.value,
        None => 0,
    }
}

#[tactic(auto, using(crate::proofs::Layers::groups_of))]
fn is_grouped(q: &Select) -> bool
    ensures { result ≡ walk.groups (layer_of q.now) }
{
    groups(q)
}

/// What is there and what was tried next, or its refusal.
fn beside<A: Drop, B: Drop>(a: A, b: Result<B, BindError>) -> Result<(A, B), BindError>
    ensures { result ≡ blocks.made (λ y. (a, y)) b }
{
    let b = b?;
    Ok((a, b))
}

fn rows_of(read: Result<(Relations, (Cond, Exprs)), BindError>) -> Result<Rows, BindError>
    ensures { result ≡ blocks.made blocks.rows_from read }
{
    let (relations, (filter, keys)) = read?;
    Ok(Rows {
        relations,
        filter,
        keys,
    })
}

/// The block of a SELECT, of its parts and of the IN subqueries and the aggregates that were found in it.
fn finished(
    alloc: Global,
    q: &Select,
    rows: Rows,
    shape: Shape,
    inner: Outer,
) -> Result<Block, NoMemory>
    ensures { IfOk result (λ b. b ≡ blocks.block_with (layer_of q.now) rows shape inner) }
{
    let Rows {
        relations,
        filter,
        keys,
    } = rows;
    let Shape {
        having,
        outputs,
        order,
    } = shape;
    let names = names_of(alloc, outputs.as_slice())?;
    let shown = count(&outputs)?;
    Ok(Block {
        query: Query {
            ctes: Queries::new(alloc),
            subs: inner.subs,
            from: relations.tree,
            filter,
            grouped: is_grouped(q),
            keys,
            aggs: inner.aggs,
            having,
            items: order.items,
            shown,
            distinct: q.distinct,
            order: order.keys,
            limit: limit_of(&q.limit),
            offset: offset_of(&q.offset),
            names,
        },
        outputs: outputs_of(alloc, outputs)?,
        joined: relations.joined,
    })
}

/// WHERE and GROUP BY.
fn conditions<N: Nested>(
    nested: &N,
    found: &mut Found,
    q: &Select,
    relations: &Relations,
    world: &World<'_>,
) -> Result<(Cond, Exprs), BindError>
    requires { SelectParts (N.may_read nested.now) (N.may_select nested.now) q.now }
    ensures { Binds (blocks.conditions_reading (layer_of q.now) world.now relations.now found.old) result found.new }
{
    let filter = filtered(
        nested,
        found,
        &q.filter,
        &scope_before(world, relations, true),
    )?;
    let scope = scope_before(world, relations, false);
    let keys = group_keys(nested, found, &q.groups, &q.items, &scope)?;
    Ok((filter, keys))
}

fn read_rows<N: Nested>(
    nested: &N,
    found: &mut Found,
    q: &Select,
    world: &World<'_>,
) -> Result<Rows, BindError>
    requires { SelectParts (N.may_read nested.now) (N.may_select nested.now) q.now }
    ensures { Binds (blocks.rows_reading (layer_of q.now) world.now found.old) result found.new }
{
    let relations = relations_of(nested, found, &q.from, world)?;
    let conditions = conditions(nested, found, q, &relations, world);
    rows_of(beside(relations, conditions))
}

/// The outputs of a SELECT, and ORDER BY.
fn ordered<N: Nested>(
    nested: &N,
    found: &mut Found,
    items: &Items<Item>,
    distinct: bool,
    keys: &Items<OrderKey>,
    scope: &Scope<'_>,
) -> Result<(ShownList, Ordered), BindError>
    requires items { All (ItemParts (N.may_read nested.now)) items.now }
    requires keys { All (OrderParts (N.may_read nested.now)) keys.now }
    ensures { Binds (blocks.ordered_reading (map item_part items.now) distinct (map order_part keys.now) scope.now found.old) result found.new }
{
    let outputs = select_list(nested, found, items, scope)?;
    let order = unordered(alloc_of(scope), outputs.as_slice())?;
    let order = order_keys(
        nested,
        found,
        keys,
        outputs.as_slice(),
        distinct,
        order,
        scope,
    )?;
    Ok((outputs, order))
}

fn read_shape<N: Nested>(
    nested: &N,
    found: &mut Found,
    q: &Select,
    rows: &Rows,
    grouped: bool,
    world: &World<'_>,
) -> Result<Shape, BindError>
    requires { SelectParts (N.may_read nested.now) (N.may_select nested.now) q.now }
    ensures { Binds (blocks.shape_reading (layer_of q.now) world.now grouped rows.now found.old) result found.new }
{
    let having = having_of(
        nested,
        found,
        &q.having,
        &scope_after(world, rows, grouped, true),
    )?;
    let scope = scope_after(world, rows, grouped, false);
    let (outputs, order) = ordered(nested, found, &q.items, q.distinct, &q.order, &scope)?;
    Ok(Shape {
        having,
        outputs,
        order,
    })
}

fn parts<N: Nested>(
    nested: &N,
    found: &mut Found,
    q: &Select,
    grouped: bool,
    world: &World<'_>,
) -> Result<(Rows, Shape), BindError>
    requires { SelectParts (N.may_read nested.now) (N.may_select nested.now) q.now }
    ensures { Binds (blocks.parts_reading (layer_of q.now) world.now grouped found.old) result found.new }
{
    let rows = read_rows(nested, found, q, world)?;
    let shape = read_shape(nested, found, q, &rows, grouped, world);
    beside(rows, shape)
}

/// A SELECT among tables and CTEs. `Err` is the first refusal in it, 33 where it is the 65th of its statement, or want of memory.
pub fn block<N: Nested>(
    nested: &N,
    found: &mut Found,
    q: &Select,
    world: &World<'_>,
) -> Result<Block, BindError>
    requires { SelectParts (N.may_read nested.now) (N.may_select nested.now) q.now }
    ensures { Binds (select_of q.now world.now found.old) result found.new }
{
    let outer = enter(found, world.alloc)?;
    let (rows, shape) = parts(nested, found, q, is_grouped(q), world)?;
    let inner = leave(found, outer);
    Ok(finished(world.alloc, q, rows, shape, inner)?)
}
