//! The select list.

use crate::from::Relation;
use crate::level::Level;
use crate::scope::Scope;
use cq_print::Draft;
use cq_token::Sign;
use cq_tree::{Expr, Query};
use cq_value::Text;

pub(crate) fn is_column(place: u64, x: &Expr) -> bool {
    match x {
        Expr::Column(at) => place == u64::from(*at),
        _ => false,
    }
}

fn is_key_column(keys: &[Expr], place: u64, x: &Expr) -> bool {
    match x {
        Expr::Column(at) => match keys.get(*at as usize) {
            Some(key) => is_column(place, key),
            None => false,
        },
        _ => false,
    }
}

/// Whether an item stands for this column of the FROM; where the query groups, by a key.
fn is_from_column(q: &Query, place: u64, x: &Expr) -> bool {
    if q.grouped {
        is_key_column(q.keys.as_slice(), place, x)
    } else {
        is_column(place, x)
    }
}

/// Whether from this place on the outputs are all columns of a relation, in order and with their names.
fn is_star(q: &Query, items: &[Expr], names: &[Text], from: usize, relation: &Relation) -> bool {
    let columns = relation.columns.as_slice();
    if columns.is_empty() || items.len().min(names.len()).saturating_sub(from) < columns.len() {
        return false;
    }
    let outputs = items.iter().zip(names).skip(from);
    for (i, ((x, name), column)) in outputs.zip(columns).enumerate() {
        let place = relation.first.saturating_add(i as u64);
        if !is_from_column(q, place, x) || name.as_str() != column.as_str() {
            return false;
        }
    }
    true
}

/// Whether a name can't stand behind AS. An output has it by its expression.
fn is_unwritten(name: &str) -> bool {
    name == "?column?" || name == "coalesce" || name == "case"
}

fn value(out: &mut Draft, scope: &Scope<'_>, x: &Expr, name: &str) {
    scope.expr(out, x, Level::Sum);
    if !is_unwritten(name) {
        out.word("as");
        out.word(name);
    }
}

/// `relation.*`
fn star(out: &mut Draft, relation: &Relation) {
    out.word(relation.alias.as_str());
    out.sign(Sign::Dot);
    out.sign(Sign::Star);
}

/// Writes the outputs from left to right, as far as they have names.
pub(crate) fn outputs(
    out: &mut Draft,
    q: &Query,
    items: &[Expr],
    relations: &[Relation],
    scope: &Scope<'_>,
) {
    let names = q.names.as_slice();
    let mut written = 0usize;
    for (place, (x, name)) in items.iter().zip(names).enumerate() {
        if place < written {
            continue;
        }
        out.sign_if(place > 0, Sign::Comma);
        let found = relations
            .iter()
            .find(|relation| is_star(q, items, names, place, relation));
        match found {
            Some(relation) => {
                star(out, relation);
                written = place.saturating_add(relation.columns.len() as usize);
            }
            None => value(out, scope, x, name.as_str()),
        }
    }
}
