use crate::bound::{Common, Source};
use cq_catalog::Catalog;
use cq_tree::Expr;
use std::alloc::Global;
use std::marker::Model;

/// The tables that there are, and the CTEs in reach.
#[derive(Drop)]
pub struct World<'a> {
    pub alloc: Global,
    pub catalog: &'a Catalog,
    pub commons: &'a [Common],
}

impl<'a> Model for World<'a> {
    ghost use Rattle.cq_reading.specs.Scopes as scopes;

    ghost Value = { scopes.World };

    ghost view = { λ w. record { tables = w.catalog.now.tables; commons = w.commons.now } };
}

/// What an expression stands in: the columns in reach, of which the first is the column `first` of the FROM; whether its query
/// groups, by which keys, and whether its FROM is joined; and whether an aggregate and an IN subquery may stand in it.
#[derive(Drop)]
pub struct Scope<'a> {
    pub world: &'a World<'a>,
    pub first: u32,
    pub columns: &'a [Source],
    pub grouped: bool,
    pub keys: &'a [Expr],
    pub joined: bool,
    pub may_aggregate: bool,
    pub may_select: bool,
}

impl<'a> Model for Scope<'a> {
    ghost use Rattle.std.specs.Coded.{codes};
    ghost use Rattle.cq_tree.specs.contracts.expression.Expr as expr;
    ghost use Rattle.cq_reading.specs.Scopes.{Context};

    ghost Value = { Context };

    ghost view = { λ s. record {
      world = s.world.now;
      first = s.first;
      columns = s.columns.now;
      grouped = s.grouped;
      keys = s.keys.now;
      joined = s.joined;
      may_aggregate = s.may_aggregate;
      may_select = s.may_select;
    } };

    ghost coded = { Prim.hlevel (codes, expr.the_row.coded) };
}
