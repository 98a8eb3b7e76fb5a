//! A SELECT over a FROM that is written.

use crate::from::Source;
use crate::grouping::{by_place, group_by, grouped};
use crate::level::Level;
use crate::outputs::outputs;
use crate::scope::{Scope, Subquery};
use cq_print::Draft;
use cq_token::Sign;
use cq_tree::{Cond, Expr, Key, Query};
use std::alloc::Global;

/// Writes WHERE or HAVING: that every row is kept is not written.
pub(crate) fn filter(out: &mut Draft, front: &str, scope: &Scope<'_>, c: &Cond) {
    match c {
        Cond::Always => {}
        c => {
            out.word(front);
            scope.cond(out, c, Level::Or);
        }
    }
}

fn order_key(out: &mut Draft, scope: &Scope<'_>, q: &Query, item: u32) {
    if item < q.shown {
        by_place(out, u64::from(item));
        return;
    }
    match q.items.get(u64::from(item)) {
        Some(x) => scope.no_number(out, x, Level::Sum),
        None => out.word("null"),
    }
}

fn order_by(out: &mut Draft, scope: &Scope<'_>, q: &Query, keys: &[Key]) {
    if keys.is_empty() {
        return;
    }
    out.word("order");
    out.word("by");
    for (i, key) in keys.iter().enumerate() {
        out.sign_if(i > 0, Sign::Comma);
        order_key(out, scope, q, key.item);
        out.word_if(key.descending, "desc");
    }
}

fn kept_part(out: &mut Draft, limit: Option<u64>, offset: u64) {
    if let Some(limit) = limit {
        out.word("limit");
        out.number(limit);
    }
    if offset > 0 {
        out.word("offset");
        out.number(offset);
    }
}

/// The outputs: the items that are shown.
fn shown(q: &Query) -> &[Expr] {
    let items = q.items.as_slice();
    let shown = (q.shown as usize).min(items.len());
    &items[..shown]
}

/// Writes a SELECT: `before` is what WHERE and the keys of GROUP BY are written by, `after` what stands behind the grouping.
fn select_by(out: &mut Draft, q: &Query, source: &Source, before: &Scope<'_>, after: &Scope<'_>) {
    let items = shown(q);
    out.word("select");
    out.word_if(q.distinct, "distinct");
    outputs(out, q, items, source.relations.as_slice(), after);
    out.word("from");
    out.append(&source.tokens);
    filter(out, "where", before, &q.filter);
    group_by(out, before, q.keys.as_slice(), items);
    filter(out, "having", after, &q.having);
    order_by(out, after, q, q.order.as_slice());
    kept_part(out, q.limit, q.offset);
}

/// Writes a SELECT over its FROM, with its IN subqueries.
pub(crate) fn select(
    alloc: Global,
    out: &mut Draft,
    q: &Query,
    source: &Source,
    subqueries: &[Subquery],
) {
    let before = Scope {
        columns: source.columns.as_slice(),
        subqueries,
    };
    if !q.grouped {
        select_by(out, q, source, &before, &before);
        return;
    }
    match grouped(alloc, &before, q) {
        Ok(columns) => {
            let after = Scope {
                columns: columns.as_slice(),
                subqueries,
            };
            select_by(out, q, source, &before, &after);
        }
        Err(NoMemory) => out.give_up(),
    }
}
