//! The columns that `*` stands for.

ghost use Rattle.std.specs.Prelude.{◌≡◌, MatchResult};
ghost use Rattle.std.specs.List.{list_any};
ghost use Rattle.cq_reading.specs.declared.error.BindError.TheVariants as error;
ghost use Rattle.cq_reading.specs.Steps as reading;
ghost use Rattle.cq_reading.specs.Outcomes.{Judges};
ghost use Rattle.cq_reading.specs.Rules as rule;
ghost use Rattle.cq_reading.specs.Rules.{if_key};
ghost use Rattle.cq_reading.specs.Scopes as scopes;
ghost use Rattle.cq_reading.specs.Selects as spec;
ghost use Rattle.cq_bind_lists.specs.Stars as stars;

use cq_bind_calls::plain;
use cq_bind_operands::value;
use cq_bind_rules::{column_at, key_column};
use cq_reading::{BindError, Bound, Scope, Source};
use cq_value::{Text, small};

/// `*`, or `relation.*`.
#[derive(Clone, Copy)]
pub enum Star<'a> {
    All,
    Of(&'a Text),
}

fn is_of(relation: &Text, column: &Source) -> bool
    ensures { result ≡ scopes.is_of relation.now column.now }
{
    column.relation.as_str() == relation.as_str()
}

pub fn is_meant(star: Star<'_>, column: &Source) -> bool
    ensures { result ≡ stars.meant star.entry column.now }
{
    match star {
        Star::All => true,
        Star::Of(relation) => is_of(relation, column),
    }
}

fn is_any_of(relation: &Text, columns: &[Source]) -> bool
    ensures { result ≡ list_any (scopes.is_of relation.now) columns.now }
{
    columns.iter().any(|column| is_of(relation, column))
}

/// Whether a relation has columns in reach.
pub fn is_there(scope: &Scope<'_>, relation: &Text) -> bool
    ensures { result ≡ list_any (scopes.is_of relation.now) scope.now.columns }
{
    is_any_of(relation, scope.columns)
}

fn the_key(key: Option<Bound>, at: u64) -> Result<Bound, BindError>
    ensures { Judges (if_key key (reading.refuse (error.NotGrouped at))) result }
{
    match key {
        Some(key) => Ok(key),
        None => Err(BindError::NotGrouped { at }),
    }
}

fn key_in(scope: &Scope<'_>, b: &Bound) -> Result<Option<Bound>, BindError>
    ensures { MatchResult result (λ k. k ≡ rule.key_column scope.now.keys b.now) (λ e. e ≡ error.Memory) }
{
    key_column(scope.keys, b)
}

fn key_or_refused(scope: &Scope<'_>, b: &Bound, at: u64) -> Result<Bound, BindError>
    ensures { Judges (stars.key_or_refused scope.now.keys b.now at) result }
{
    let key = key_in(scope, b)?;
    the_key(key, at)
}

/// The key that a column is, or its refusal with 15.
fn star_key(scope: &Scope<'_>, at: u64, place: u32) -> Result<Bound, BindError>
    ensures { Judges (stars.key_or_refused scope.now.keys (scopes.column_at scope.now place) at) result }
{
    let b = column_at(&plain(scope), place, at)?;
    let key = key_or_refused(scope, &b, at);
    drop(b);
    key
}

/// A column that `*` stands for. In a query that groups it is a key, or refused with 15.
fn star_bound(scope: &Scope<'_>, at: u64, place: u32) -> Result<Bound, BindError>
    ensures { Judges (stars.star_reading at place scope.now) result }
{
    if scope.grouped {
        star_key(scope, at, place)
    } else {
        column_at(scope, place, at)
    }
}

/// The place of a column, as trees have it. The only error is want of memory, where it is above 4294967295.
fn tree_place(place: usize) -> Result<u32, BindError>
    ensures { MatchResult result (λ n. n ≡ place) (λ e. e ≡ error.Memory) }
{
    Ok(small(place as u64)?)
}

/// The value of a column that `*` stands for.
pub fn star_value(scope: &Scope<'_>, at: u64, place: usize) -> Result<Bound, BindError>
    ensures { Judges (spec.value_of at (stars.star_reading at place scope.now)) result }
{
    let number = tree_place(place)?;
    let b = star_bound(scope, at, number)?;
    value(b, at)
}
