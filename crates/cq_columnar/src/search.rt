ghost use Rattle.std.specs.Prelude.{◌≡◌, ◌++◌, Bool, List, [], false, filter, IfOk, OnOk};
ghost use Rattle.cq_value.specs.declared.value.Value.{Value as Val};
ghost use Rattle.cq_pages.specs.Pages.{pairs_of};

use crate::chunk::Chunk;
use cq_store::Pairs;
use cq_value::{NoMemory, Row};
use std::alloc::Global;

/// Rows that are looked for in chunks.
pub(crate) trait Search {
    /// Whether a row is one of them.
    ghost wants: { Self → List Val → Bool };

    /// Whether a row is one of them.
    fn takes(&self, row: &Row) -> bool
        ensures { result ≡ wants self.now row.now };

    /// Whether one may be in a chunk, by what is kept of its columns.
    fn may_be_in(&self, chunk: &Chunk) -> bool
        ensures { result ≡ false → filter (λ p. wants self.now p.1) chunk.now ≡ [] };
}

/// Puts the rows that are looked for behind those found before.
fn push_found<S: Search>(rows: Pairs, search: &S, found: &mut Pairs) -> Result<(), NoMemory>
    ensures { OnOk result (found.new ≡ found.old ++ filter (λ p. S.wants search.now p.1) rows) }
{
    for (id, row) in rows.into_vec() {
        if search.takes(&row) {
            found.put((id, row))?;
        }
    }
    Ok(())
}

/// Does so with the rows of a chunk. One that has none, by what is kept of its columns, isn't looked at.
fn look<S: Search>(
    alloc: Global,
    chunk: &Chunk,
    search: &S,
    found: &mut Pairs,
) -> Result<(), NoMemory>
    ensures { OnOk result (found.new ≡ found.old ++ filter (λ p. S.wants search.now p.1) chunk.now) }
{
    if search.may_be_in(chunk) {
        return push_found(chunk.rows(alloc)?, search, found);
    }
    Ok(())
}

/// Copies of the rows of chunks that are looked for, with their ids, in order.
pub(crate) fn find<S: Search>(
    alloc: Global,
    chunks: &[Chunk],
    search: &S,
) -> Result<Pairs, NoMemory>
    ensures { IfOk result (λ found. found ≡ filter (λ p. S.wants search.now p.1) (pairs_of chunks.now)) }
{
    let mut found = Pairs::new(alloc);
    for chunk in chunks {
        look(alloc, chunk, search, &mut found)?;
    }
    Ok(found)
}
