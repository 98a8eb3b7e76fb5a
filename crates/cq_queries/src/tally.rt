ghost use Rattle.std.specs.Prelude.{◌≡◌, [], ◌++◌, map, All, IfOk, OnOk};
ghost use Rattle.cq_meaning.specs.Values.{Results as TheResults};
ghost use Rattle.cq_meaning.specs.Groups.{added, greater_of, lesser_of, aggregate};
ghost use Rattle.cq_meaning.specs.Safety.{Fits};
ghost use Rattle.cq_queries.specs.Cells.{row_in};
ghost use Rattle.cq_queries.specs.Operands.{owned};
ghost use Rattle.cq_queries.specs.Tallies.{one_more, counted, with_row, tally_over, tally_with, CanTake, CanTally};

use crate::cells::Cells;
use crate::expression::glance;
use crate::members::Lookups;
use crate::operand::{self, Operand};
use cq_tree::{Agg, Expr};
use cq_value::{Items, NoMemory, Truth, Values};
use std::alloc::Global;
use std::cmp::Ordering;
use std::marker::Model;

fn add_one(n: &mut Operand<'_>)
    requires { Fits (one_more (owned n.old)) }
    ensures { owned n.new ≡ one_more (owned n.old) }
{
    match n {
        Operand::Int(x) => *x += 1,
        _ => *n = Operand::Null,
    }
}

/// Counts a value that isn't NULL.
fn count_known<'a>(n: &mut Operand<'a>, v: Operand<'a>)
    requires { Fits (one_more (owned n.old)) }
    ensures { owned n.new ≡ counted (owned n.old) (owned v.entry) }
{
    match v {
        Operand::Null => {}
        _ => add_one(n),
    }
}

fn add_known<'a>(sum: &mut Operand<'a>, v: Operand<'a>)
    requires { Fits (added (owned sum.old) (owned v)) }
    ensures { owned sum.new ≡ added (owned sum.old) (owned v.entry) }
{
    if let Operand::Int(y) = v {
        match sum {
            Operand::Int(x) => *x += y,
            _ => *sum = v,
        }
    }
}

fn take_greater<'a>(best: &mut Operand<'a>, v: Operand<'a>)
    ensures { owned best.new ≡ greater_of (owned best.old) (owned v.entry) }
{
    match v {
        Operand::Null => {}
        _ => match *best {
            Operand::Null => *best = v,
            _ => {
                if operand::order(*best, v) == Ordering::Less {
                    *best = v;
                }
            }
        },
    }
}

fn take_lesser<'a>(best: &mut Operand<'a>, v: Operand<'a>)
    ensures { owned best.new ≡ lesser_of (owned best.old) (owned v.entry) }
{
    match v {
        Operand::Null => {}
        _ => match *best {
            Operand::Null => *best = v,
            _ => {
                if operand::order(v, *best) == Ordering::Less {
                    *best = v;
                }
            }
        },
    }
}

/// What an aggregate comes to over no rows.
fn none_yet<'a>(a: &Agg) -> Operand<'a>
    ensures { (results : TheResults) → owned result ≡ aggregate results [] a.now }
{
    match a {
        Agg::CountAll => Operand::Int(0),
        Agg::Count(_) => Operand::Int(0),
        Agg::Sum(_) => Operand::Null,
        Agg::Min(_) => Operand::Null,
        Agg::Max(_) => Operand::Null,
    }
}

/// What an aggregate comes to with one row more.
fn take_row<'a>(a: &'a Agg, so_far: &mut Operand<'a>, row: Cells<'a>, results: &Lookups<'_>)
    requires { CanTake results.now (row_in row) a.now (owned so_far.old) }
    ensures { owned so_far.new ≡ with_row results.now (row_in row.entry) a.now (owned so_far.old) }
{
    match a {
        Agg::CountAll => add_one(so_far),
        Agg::Count(e) => count_known(so_far, glance(e, row, results)),
        Agg::Sum(e) => add_known(so_far, glance(e, row, results)),
        Agg::Min(e) => take_lesser(so_far, glance(e, row, results)),
        Agg::Max(e) => take_greater(so_far, glance(e, row, results)),
    }
}

/// An aggregate, and what it comes to over the rows so far. Contracts see both.
#[derive(Drop)]
pub struct Tally<'a> {
    agg: &'a Agg,
    so_far: Operand<'a>,
}

impl<'a> Model for Tally<'a> {
    ghost use Rattle.std.specs.Coded.{codes};
    ghost use Rattle.cq_tree.specs.contracts.expression.Expr as expr;
    ghost use Rattle.cq_queries.specs.Tallies.{Tally as TheTally};
    ghost use Rattle.cq_queries.specs.Operands.{owned};

    ghost Value = { TheTally };

    ghost coded = { Prim.hlevel (codes, expr.the_row.coded) };

    ghost view = { λ t. (t.agg.now, owned t.so_far) };
}

impl<'a> Tally<'a> {
    /// Over no rows.
    pub fn new(agg: &'a Agg) -> Tally<'a>
        ensures { (results : TheResults) → result ≡ tally_over results [] agg.now }
    {
        Tally {
            agg,
            so_far: none_yet(agg),
        }
    }

    /// Adds a row.
    fn add(&mut self, row: Cells<'a>, results: &Lookups<'_>)
        requires { CanTally results.now (row_in row) self.old }
        ensures { self.new ≡ tally_with results.now (row_in row.entry) self.old }
    {
        take_row(self.agg, &mut self.so_far, row, results);
    }
}

fn add_row<'a>(list: &mut Vec<Tally<'a>>, row: Cells<'a>, results: &Lookups<'_>)
    requires { All (CanTally results.now (row_in row)) list.old.items }
    ensures { list.new.items ≡ map (tally_with results.now (row_in row.entry)) list.old.items }
{
    for t in list.iter_mut() {
        t.add(row, results);
    }
}

/// Puts what aggregates come to behind a group's keys.
fn put_all_values(alloc: Global, row: &mut Values, list: &[Tally<'_>]) -> Result<(), NoMemory>
    ensures { OnOk result (row.new ≡ row.old ++ map (λ t. t.1) list.now) }
{
    for t in list {
        row.put(operand::take(alloc, t.so_far)?)?;
    }
    Ok(())
}

/// Aggregates over the rows so far. Contracts see each, and what it comes to.
#[derive(Drop)]
pub struct Tallies<'a> {
    list: Vec<Tally<'a>>,
}

impl<'a> Model for Tallies<'a> {
    ghost use Rattle.std.specs.Prelude.{List};
    ghost use Rattle.std.specs.Coded.{codes};
    ghost use Rattle.cq_tree.specs.contracts.expression.Expr as expr;
    ghost use Rattle.cq_queries.specs.Tallies.{Tally as TheTally};

    ghost Value = { List TheTally };

    ghost coded = { Prim.hlevel (codes, expr.the_row.coded) };

    ghost view = { λ t. t.list.items };
}

impl<'a> Tallies<'a> {
    /// Over no rows.
    pub fn new(alloc: Global, aggs: &'a [Agg]) -> Result<Tallies<'a>, NoMemory>
        ensures { IfOk result (λ tallies. (results : TheResults) → tallies ≡ map (tally_over results []) aggs.now) }
    {
        let mut list = Items::with_room(alloc, aggs.len() as u64)?;
        for a in aggs {
            list.put(Tally::new(a))?;
        }
        Ok(Tallies {
            list: list.into_vec(),
        })
    }

    /// Adds a row to each.
    pub fn add(&mut self, row: Cells<'a>, results: &Lookups<'_>)
        requires { All (CanTally results.now (row_in row)) self.old }
        ensures { self.new ≡ map (tally_with results.now (row_in row.entry)) self.old }
    {
        add_row(&mut self.list, row, results);
    }

    /// Puts what they come to behind a group's keys.
    pub fn put_values(&self, alloc: Global, row: &mut Values) -> Result<(), NoMemory>
        ensures { OnOk result (row.new ≡ row.old ++ map (λ t. t.1) self.now) }
    {
        put_all_values(alloc, row, self.list.as_slice())
    }
}
