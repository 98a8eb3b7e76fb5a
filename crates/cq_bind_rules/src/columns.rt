//! Names of columns.

ghost use Rattle.std.specs.Prelude.{◌≡◌, position, count_by, MatchResult};
ghost use Rattle.cq_reading.specs.declared.error.BindError.TheVariants.{Memory};
ghost use Rattle.cq_reading.specs.Steps.{give};
ghost use Rattle.cq_reading.specs.Outcomes.{Judges};
ghost use Rattle.cq_reading.specs.Scopes as scopes;
ghost use Rattle.cq_reading.specs.Scopes.{has_name, has_full_name, named, named_of, found_column};
ghost use Rattle.cq_reading.specs.Expressions.{named_in_group};
ghost use Rattle.cq_bind_rules.specs.Places.{place};

use cq_bind_operands::null;
use cq_grammar::Name;
use cq_reading::{BindError, Bound, Scope, Source};
use cq_tree::Expr;
use cq_value::{Text, small};

/// Where a name is found.
#[derive(Clone, Copy)]
enum Place {
    Nowhere,
    Once(usize),
    Repeated,
}

fn is_named(source: &Source, name: &Text) -> bool
    ensures { result ≡ has_name name.now source.now }
{
    source.name.as_str() == name.as_str()
}

fn is_of(source: &Source, relation: &Text) -> bool
    ensures { result ≡ scopes.is_of relation.now source.now }
{
    source.relation.as_str() == relation.as_str()
}

fn place_by(first: Option<usize>, count: usize) -> Place
    ensures { place result ≡ scopes.place_by first count }
{
    match first {
        None => Place::Nowhere,
        Some(i) if count <= 1 => Place::Once(i),
        Some(_) => Place::Repeated,
    }
}

fn first_named(columns: &[Source], name: &Text) -> Option<usize>
    ensures { result ≡ position (has_name name.now) columns.now }
{
    columns.iter().position(|c| is_named(c, name))
}

fn how_many_named(columns: &[Source], name: &Text) -> usize
    ensures { result ≡ count_by (has_name name.now) columns.now }
{
    columns.iter().filter(|c| is_named(c, name)).count()
}

fn place_of_name(columns: &[Source], name: &Text) -> Place
    ensures { place result ≡ scopes.place_of (has_name name.now) columns.now }
{
    place_by(first_named(columns, name), how_many_named(columns, name))
}

fn is_meant(source: &Source, relation: &Text, name: &Text) -> bool
    ensures { result ≡ has_full_name relation.now name.now source.now }
{
    is_of(source, relation) && is_named(source, name)
}

fn first_meant(columns: &[Source], relation: &Text, name: &Text) -> Option<usize>
    ensures { result ≡ position (has_full_name relation.now name.now) columns.now }
{
    columns.iter().position(|c| is_meant(c, relation, name))
}

fn how_many_meant(columns: &[Source], relation: &Text, name: &Text) -> usize
    ensures { result ≡ count_by (has_full_name relation.now name.now) columns.now }
{
    columns
        .iter()
        .filter(|c| is_meant(c, relation, name))
        .count()
}

fn place_of_full_name(columns: &[Source], relation: &Text, name: &Text) -> Place
    ensures { place result ≡ scopes.place_of (has_full_name relation.now name.now) columns.now }
{
    let first = first_meant(columns, relation, name);
    place_by(first, how_many_meant(columns, relation, name))
}

/// The place of a column as trees have it. The only error is want of memory, where it is above 4294967295.
pub(crate) fn column_number(place: u64) -> Result<u32, BindError>
    ensures { MatchResult result (λ i. i ≡ place) (λ e. e ≡ Memory) }
{
    Ok(small(place)?)
}

/// The column at this place of those in reach, and NULL where there is none.
fn bound_at(scope: &Scope<'_>, i: usize) -> Result<Bound, BindError>
    ensures { Judges (give (scopes.column_at scope.now i)) result }
{
    match scope.columns.get(i) {
        Some(source) => {
            let column = column_number(u64::from(scope.first) + i as u64)?;
            Ok(Bound::Value(Expr::Column(column), source.kind, source.width))
        }
        None => Ok(null()),
    }
}

fn found(scope: &Scope<'_>, at: u64, place_found: Place) -> Result<Bound, BindError>
    ensures { Judges (named_in_group scope.now (found_column scope.now at (place place_found)) at) result }
{
    match place_found {
        Place::Nowhere => Err(BindError::Unknown { at }),
        Place::Repeated => Err(BindError::Ambiguous { at }),
        Place::Once(_) if scope.grouped => Err(BindError::NotGrouped { at }),
        Place::Once(i) => bound_at(scope, i),
    }
}

/// The column at this place of those in reach. It is refused with 15 at `at` in a query that groups.
pub fn column_at(scope: &Scope<'_>, i: u32, at: u64) -> Result<Bound, BindError>
    ensures { Judges (named_in_group scope.now (give (scopes.column_at scope.now i)) at) result }
{
    found(scope, at, Place::Once(i as usize))
}

/// `name`: the only column of this name in reach. At the name it is refused with 12 where there is none, with 13 where there are
/// more, and with 15 in a query that groups.
pub fn column(scope: &Scope<'_>, name: &Name) -> Result<Bound, BindError>
    ensures { Judges (named_in_group scope.now (named scope.now name.now.text name.now.at) name.now.at) result }
{
    found(scope, name.at, place_of_name(scope.columns, &name.text))
}

/// `relation.column`: the only column of these names in reach. At the relation's name it is refused with 12 where there is none,
/// with 13 where there are more, and with 15 in a query that groups.
pub fn column_of(scope: &Scope<'_>, relation: &Name, column: &Name) -> Result<Bound, BindError>
    ensures { Judges (named_in_group scope.now (named_of scope.now relation.now.text column.now.text relation.now.at) relation.now.at) result }
{
    let place_found = place_of_full_name(scope.columns, &relation.text, &column.text);
    found(scope, relation.at, place_found)
}
