ghost use Rattle.std.specs.Prelude.{◌≡◌, ◌<◌, [], ◌∷◌, ◌++◌, length, slice_set, IfOk, OnOk, OnErr};
ghost use Rattle.std.specs.List.{remove};

use cq_value::{NoMemory, Row};
use std::alloc::{AllocError, Global};
use std::marker::Model;
use std::sync::Arc;

/// Rows with their ids, with a way to copy them.
#[derive(Debug, Drop)]
struct Numbers {
    alloc: Global,
    pairs: Vec<(u64, Row)>,
}

/// Rows with their ids, which several tables may own. Contracts see the list of pairs. A page that has other owners is copied
/// before it changes, so that theirs stays.
#[derive(Debug, Drop)]
pub struct Page {
    shared: Arc<Numbers>,
}

impl Model for Page {
    ghost use Rattle.std.specs.Prelude.{List};
    ghost use Rattle.std.specs.Arc.{arc_value};
    ghost use Rattle.cq_value.specs.Tables.{Pair};

    ghost Value = { List Pair };

    ghost view = { λ p. (arc_value p.shared).pairs.items };
}

/// Equal pairs, with room for one more.
fn copy_pairs(pairs: &[(u64, Row)], alloc: Global) -> Result<Vec<(u64, Row)>, NoMemory>
    ensures { IfOk result (λ copy. copy.items ≡ pairs.now) }
{
    let Ok(mut copy) = Vec::with_capacity(alloc, pairs.len() + 1) else {
        return Err(NoMemory);
    };
    for (id, row) in pairs {
        if copy.push((*id, row.copy(alloc)?)).is_err() {
            return Err(NoMemory);
        }
    }
    Ok(copy)
}

impl Clone for Numbers {
    ghost is_clone = { λ a b. b.pairs.items ≡ a.pairs.items };

    fn clone(&self) -> Result<Numbers, AllocError> {
        match copy_pairs(&self.pairs, self.alloc) {
            Ok(pairs) => Ok(Numbers {
                alloc: self.alloc,
                pairs,
            }),
            Err(_) => Err(AllocError),
        }
    }
}

impl Page {
    /// A page of one row.
    pub(crate) fn new(alloc: Global, id: u64, row: Row) -> Result<Page, NoMemory>
        ensures { IfOk result (λ page. page ≡ (id, row) ∷ []) }
    {
        let mut pairs = Vec::new(alloc);
        if pairs.push((id, row)).is_err() {
            return Err(NoMemory);
        }
        match Arc::new(alloc, Numbers { alloc, pairs }) {
            Ok(shared) => Ok(Page { shared }),
            Err(_) => Err(NoMemory),
        }
    }

    /// The rows with their ids, in order.
    pub fn pairs(&self) -> &[(u64, Row)]
        ensures { result.now ≡ self.now }
    {
        &self.shared.pairs
    }

    /// The same page, which has one more owner. Copies no row.
    pub(crate) fn share(&self) -> Result<Page, NoMemory>
        ensures { IfOk result (λ page. page ≡ self.now) }
    {
        match Arc::try_clone(&self.shared) {
            Ok(shared) => Ok(Page { shared }),
            Err(_) => Err(NoMemory),
        }
    }

    /// Puts a row last.
    pub(crate) fn push(&mut self, id: u64, row: Row) -> Result<(), NoMemory>
        ensures ok { OnOk result (self.new ≡ self.old ++ (id, row) ∷ []) }
        ensures err { OnErr result (self.new ≡ self.old) }
    {
        match Arc::make_mut(&mut self.shared) {
            Ok(numbers) => match numbers.pairs.push((id, row)) {
                Ok(()) => Ok(()),
                Err(_) => Err(NoMemory),
            },
            Err(_) => Err(NoMemory),
        }
    }

    /// Puts another row, with its id, in a place.
    pub(crate) fn set(&mut self, place: usize, id: u64, row: Row) -> Result<(), NoMemory>
        requires { place < length self.old }
        ensures ok { OnOk result (self.new ≡ slice_set self.old place (id, row)) }
        ensures err { OnErr result (self.new ≡ self.old) }
    {
        match Arc::make_mut(&mut self.shared) {
            Ok(numbers) => {
                numbers.pairs[place] = (id, row);
                Ok(())
            }
            Err(_) => Err(NoMemory),
        }
    }

    /// Takes the row at a place out.
    pub(crate) fn remove(&mut self, place: usize) -> Result<(), NoMemory>
        requires { place < length self.old }
        ensures ok { OnOk result (self.new ≡ remove self.old place) }
        ensures err { OnErr result (self.new ≡ self.old) }
    {
        match Arc::make_mut(&mut self.shared) {
            Ok(numbers) => {
                numbers.pairs.remove(place);
                Ok(())
            }
            Err(_) => Err(NoMemory),
        }
    }
}
