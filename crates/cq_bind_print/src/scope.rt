use crate::level::Level;
use cq_print::Draft;

/// What a column is written as, and the level of that.
#[derive(Drop)]
pub(crate) struct Phrase {
    pub tokens: Draft,
    pub level: Level,
}

/// The number of an IN subquery's result, and its SELECT.
#[derive(Drop)]
pub(crate) struct Subquery {
    pub number: u64,
    pub select: Draft,
}

/// What an expression is written by: each column in its place, and the IN subqueries of its SELECT.
#[derive(Clone, Copy)]
pub(crate) struct Scope<'a> {
    pub columns: &'a [Phrase],
    pub subqueries: &'a [Subquery],
}
