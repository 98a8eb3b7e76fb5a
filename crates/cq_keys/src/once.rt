ghost use Rattle.std.specs.Prelude.{◌≡◌, ◌||◌, not, IfOk, OnOk};
ghost use Rattle.std.specs.HashSet.{contains};
ghost use Rattle.cq_meaning.specs.Values.{same_row};
ghost use Rattle.cq_meaning.specs.Groups.{distinct as distinct_rows};
ghost use Rattle.cq_keys.specs.declared.key.RowKey.{RowKey as TheKey};

use crate::key::RowKey;
use cq_value::{NoMemory, Row, Rows};
use std::alloc::Global;
use std::collections::HashSet;
use std::hash::RandomState;

/// Puts a key into a set, and says whether it is new there.
fn put_key(seen: &mut HashSet<RowKey, RandomState>, key: RowKey) -> Result<bool, NoMemory>
    ensures new { IfOk result (λ new. new ≡ not (contains (λ a b. same_row a.row b.row) seen.old key)) }
    ensures more { OnOk result ((q : TheKey) → contains (λ a b. same_row a.row b.row) seen.new q ≡ (same_row key.row q.row || contains (λ a b. same_row a.row b.row) seen.old q)) }
{
    match seen.insert(key) {
        Ok(new) => Ok(new),
        Err(_) => Err(NoMemory),
    }
}

/// DISTINCT: of rows that are the same the first, in their order. They are found by a hash with this secret.
pub fn distinct(alloc: Global, hash: RandomState, rows: Rows) -> Result<Rows, NoMemory>
    ensures { IfOk result (λ all. all ≡ distinct_rows rows) }
{
    let mut seen = HashSet::with_hasher(alloc, hash);
    let mut all = Rows::new(alloc);
    for row in rows.into_vec() {
        let key = RowKey {
            row: row.copy(alloc)?,
        };
        if put_key(&mut seen, key)? {
            all.put(row)?;
        }
    }
    Ok(all)
}
