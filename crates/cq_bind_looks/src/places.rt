ghost use Rattle.std.specs.Prelude.{◌≡◌, map};
ghost use Rattle.cq_reading.specs.Expressions.{middle_word as middle, last_test as last_of_tests, last_sign as last_of_signs, last_operator as last_of_operators};
ghost use Rattle.cq_reading.specs.Walk.{part_of, later_part, added_part, multiplied_part};

use cq_grammar::{Added, Chained, Expr, Multiplied, NullTest};
use cq_value::Items;

/// The place of the word at which a chain is cut in halves.
#[tactic(auto, using(crate::proofs::PlaceLaws::middle_is))]
fn middle_word(rest: &Items<Chained>) -> u64
    ensures { result ≡ middle (map later_part rest.now) }
{
    match rest.get(rest.len() / 2) {
        Some(later) => later.at,
        None => 0,
    }
}

/// The place of the last of some tests, and this one where there is none.
#[tactic(auto, using(crate::proofs::PlaceLaws::test_is))]
fn last_test(first: u64, rest: &[NullTest]) -> u64
    ensures { result ≡ last_of_tests first rest.now }
{
    match rest.last() {
        Some(test) => test.at,
        None => first,
    }
}

/// The place of the last sign of a sum, and this one where there is none.
#[tactic(auto, using(crate::proofs::PlaceLaws::sign_is))]
fn last_sign(first: u64, rest: &[Added]) -> u64
    ensures { result ≡ last_of_signs first (map added_part rest.now) }
{
    match rest.last() {
        Some(later) => later.at,
        None => first,
    }
}

/// The place of the last sign of a product, and this one where there is none.
#[tactic(auto, using(crate::proofs::PlaceLaws::operator_is))]
fn last_operator(first: u64, rest: &[Multiplied]) -> u64
    ensures { result ≡ last_of_operators first (map multiplied_part rest.now) }
{
    match rest.last() {
        Some(later) => later.at,
        None => first,
    }
}

/// The place of an expression: that of the operator at its root, and of its first token where it has none.
#[tactic(auto, using(crate::proofs::Looks::looks))]
pub fn place(e: &Expr) -> u64
    ensures { result ≡ (part_of e.now).at }
{
    match e {
        Expr::Or { rest, .. } | Expr::And { rest, .. } => middle_word(rest),
        Expr::Is { first, rest } => last_test(place(first.get()), rest.as_slice()),
        Expr::Sum { first, rest } => last_sign(place(first.get()), rest.as_slice()),
        Expr::Product { first, rest } => last_operator(place(first.get()), rest.as_slice()),
        Expr::Column { column: name } | Expr::ColumnOf { relation: name, .. } => name.at,
        Expr::Not { at, .. }
        | Expr::Compare { at, .. }
        | Expr::Tested { at, .. }
        | Expr::Signed { at, .. }
        | Expr::Number { at, .. }
        | Expr::Quoted { at, .. }
        | Expr::Null { at }
        | Expr::Group { at, .. }
        | Expr::Case { at, .. }
        | Expr::Coalesce { at, .. }
        | Expr::CountAll { at }
        | Expr::Aggregate { at, .. } => *at,
    }
}
