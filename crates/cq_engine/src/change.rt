ghost use Rattle.std.specs.Prelude.{◌≡◌, ◌<◌, ◌+◌, ◌≤◌, ◌^◌, [], length, IfOk, All, MatchOption, true, false};
ghost use Rattle.cq_meaning.specs.Effects.{is_kept, updates, fit_kinds, puts, drops, adds};
ghost use Rattle.cq_meaning.specs.Safety.{IsSafe, IsSafeCondition};

use crate::update::{fits_kinds, update_row};
use cq_queries::{Lookups, test};
use cq_tree::{Cond, Set};
use cq_value::{Change, Changes, Kind, NoMemory, Row, Truth};
use std::alloc::Global;

/// One Add for each row, under the ids from `next` on.
pub fn adds_of(alloc: Global, next: u64, rows: &[Row]) -> Result<Changes, NoMemory>
    requires { next + length rows.now ≤ 2 ^ 32 }
    ensures { IfOk result (λ changes. changes ≡ adds next rows.now) }
{
    let mut changes = Changes::new(alloc);
    let mut id = next;
    for row in rows {
        changes.put(Change::Add(id, row.copy(alloc)?))?;
        id += 1;
    }
    Ok(changes)
}

/// Whether the filter is true of a row.
fn keeps(filter: &Cond, pair: &(u64, Row), none: &Lookups<'_>) -> bool
    requires none { none.now ≡ [] }
    requires safe { IsSafeCondition filter.now pair.now.1 [] }
    ensures { result ≡ is_kept filter.now pair.now }
{
    test(filter, &pair.1, none) == Truth::Yes
}

/// One Drop for each row that the filter keeps.
pub fn drops_of(alloc: Global, filter: &Cond, pairs: &[(u64, Row)]) -> Result<Changes, NoMemory>
    requires { All (λ p. IsSafeCondition filter.now p.1 []) pairs.now }
    ensures { IfOk result (λ changes. changes ≡ drops filter.now pairs.now) }
{
    let none = Lookups::new(alloc);
    let mut changes = Changes::new(alloc);
    for pair in pairs {
        if keeps(filter, pair, &none) {
            changes.put(Change::Drop(pair.0))?;
        }
    }
    Ok(changes)
}

/// One Put for each row that the filter keeps, or None where one of them would have a number outside its column's type.
pub fn puts_of(
    alloc: Global,
    filter: &Cond,
    sets: &[Set],
    kinds: &[Kind],
    pairs: &[(u64, Row)],
) -> Result<Option<Changes>, NoMemory>
    requires filter { All (λ p. IsSafeCondition filter.now p.1 []) pairs.now }
    requires sets { All (λ p. All (λ s. IsSafe s.value p.1 []) sets.now) pairs.now }
    requires within { All (λ p. All (λ s. s.column < length p.1) sets.now) pairs.now }
    ensures { IfOk result (λ made. MatchOption made (fit_kinds kinds.now (updates filter.now sets.now pairs.now) ≡ false) (λ changes. (changes ≡ puts filter.now sets.now pairs.now) × (fit_kinds kinds.now (updates filter.now sets.now pairs.now) ≡ true))) }
{
    let none = Lookups::new(alloc);
    let mut changes = Changes::new(alloc);
    for pair in pairs {
        if keeps(filter, pair, &none) {
            let row = update_row(alloc, sets, &pair.1)?;
            if !fits_kinds(kinds, row.as_slice()) {
                return Ok(None);
            }
            changes.put(Change::Put(pair.0, row))?;
        }
    }
    Ok(Some(changes))
}
