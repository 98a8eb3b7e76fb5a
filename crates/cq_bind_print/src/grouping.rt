//! GROUP BY, and what the columns behind it are written as.

use crate::level::Level;
use crate::outputs::is_column;
use crate::scope::{Phrase, Scope};
use cq_print::Draft;
use cq_same::same_expr;
use cq_token::Sign;
use cq_tree::{Agg, Expr, Query};
use cq_value::{Items, NoMemory};
use std::alloc::Global;

fn key(alloc: Global, scope: &Scope<'_>, key: &Expr) -> Phrase {
    let level = scope.level(key);
    let mut tokens = Draft::new(alloc);
    scope.expr(&mut tokens, key, level);
    Phrase { tokens, level }
}

fn aggregated(out: &mut Draft, scope: &Scope<'_>, function: &str, argument: &Expr) {
    out.word(function);
    out.sign(Sign::Open);
    scope.expr(out, argument, Level::Sum);
    out.sign(Sign::Close);
}

fn count_all(out: &mut Draft) {
    out.word("count");
    out.sign(Sign::Open);
    out.sign(Sign::Star);
    out.sign(Sign::Close);
}

fn aggregate(alloc: Global, scope: &Scope<'_>, a: &Agg) -> Phrase {
    let mut tokens = Draft::new(alloc);
    match a {
        Agg::CountAll => count_all(&mut tokens),
        Agg::Count(e) => aggregated(&mut tokens, scope, "count", e),
        Agg::Sum(e) => aggregated(&mut tokens, scope, "sum", e),
        Agg::Min(e) => aggregated(&mut tokens, scope, "min", e),
        Agg::Max(e) => aggregated(&mut tokens, scope, "max", e),
    }
    Phrase {
        tokens,
        level: Level::Unary,
    }
}

fn put_aggregates(
    alloc: Global,
    all: &mut Items<Phrase>,
    scope: &Scope<'_>,
    aggs: &[Agg],
) -> Result<(), NoMemory> {
    for a in aggs {
        all.put(aggregate(alloc, scope, a))?;
    }
    Ok(())
}

/// The columns behind a grouping: the keys, and then the aggregates.
pub(crate) fn grouped(
    alloc: Global,
    scope: &Scope<'_>,
    q: &Query,
) -> Result<Items<Phrase>, NoMemory> {
    let mut all = Items::new(alloc);
    for k in q.keys.as_slice() {
        all.put(key(alloc, scope, k))?;
    }
    put_aggregates(alloc, &mut all, scope, q.aggs.as_slice())?;
    Ok(all)
}

/// The place of the output that a key is.
fn output_of(keys: &[Expr], outputs: &[Expr], key: &Expr) -> Option<usize> {
    let place = keys.iter().position(|other| same_expr(key, other))?;
    outputs.iter().position(|x| is_column(place as u64, x))
}

/// Writes an output's place, counted from 1.
pub(crate) fn by_place(out: &mut Draft, place: u64) {
    match place.checked_add(1) {
        Some(number) => out.number(number),
        None => out.give_up(),
    }
}

pub(crate) fn group_by(out: &mut Draft, scope: &Scope<'_>, keys: &[Expr], outputs: &[Expr]) {
    if keys.is_empty() {
        return;
    }
    out.word("group");
    out.word("by");
    for (i, key) in keys.iter().enumerate() {
        out.sign_if(i > 0, Sign::Comma);
        match output_of(keys, outputs, key) {
            Some(place) => by_place(out, place as u64),
            None => scope.no_number(out, key, Level::Sum),
        }
    }
}
