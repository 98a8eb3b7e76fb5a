ghost use Rattle.std.specs.Prelude.{◌≡◌, ◌<◌, ◌≤◌, [], ◌∷◌, ◌++◌, true, length, slice_index_or, MatchOption, IfOk, OnOk, OnErr};
ghost use Rattle.std.specs.List.{AllByRecursion};
ghost use Rattle.cq_pages.specs.Pages.{pairs_of, IsPage, AreLaid, Ascends, Stands, StandsAt, Splits, EndsWith, named, has, with_new, without};

use crate::page::Page;
use cq_value::{NoMemory, Row};
use std::alloc::Global;

/// The first id of a page, 0 of an empty one.
fn first_id(page: &Page) -> u64
    ensures { result ≡ (slice_index_or page.now 0 (0, [])).0 }
{
    match page.pairs().first() {
        Some(pair) => pair.0,
        None => 0,
    }
}

/// The place of the page that an id stands in, if it is there.
fn page_place(pages: &[Page], id: u64) -> usize
    requires { AreLaid pages.now }
    ensures within { result ≤ length pages.now }
    ensures stands { Stands pages.now id result }
{
    pages
        .partition_point(|page| first_id(page) <= id)
        .saturating_sub(1)
}

/// Where the ids below one end, in a page.
fn spot(pairs: &[(u64, Row)], id: u64) -> usize
    requires { Ascends pairs.now }
    ensures { Splits pairs.now id result }
{
    pairs.partition_point(|pair| pair.0 < id)
}

/// The row with an id, with its id, in a page.
fn find_in(pairs: &[(u64, Row)], id: u64) -> Option<&(u64, Row)>
    requires { Ascends pairs.now }
    ensures { MatchOption result (named id pairs.now ≡ []) (λ p. named id pairs.now ≡ p.now ∷ []) }
{
    let place = spot(pairs, id);
    if place == pairs.len() {
        return None;
    }
    let pair = &pairs[place];
    if pair.0 == id { Some(pair) } else { None }
}

/// The row with an id, with its id.
pub(crate) fn find(pages: &[Page], id: u64) -> Option<&(u64, Row)>
    requires { AreLaid pages.now }
    ensures { MatchOption result (named id (pairs_of pages.now) ≡ []) (λ p. named id (pairs_of pages.now) ≡ p.now ∷ []) }
{
    let place = page_place(pages, id);
    if place == pages.len() {
        return None;
    }
    find_in(pages[place].pairs(), id)
}

/// The row at a place of all rows, from 0, with its id.
pub(crate) fn pair_at(pages: &[Page], place: usize) -> Option<&(u64, Row)>
    ensures { MatchOption result (length (pairs_of pages.now) ≤ place) (λ p. StandsAt (pairs_of pages.now) place p.now) }
{
    let mut left = place;
    for page in pages {
        let pairs = page.pairs();
        if left < pairs.len() {
            return Some(&pairs[left]);
        }
        left -= pairs.len();
    }
    None
}

/// The pages from the one on that an id stands in, if it is there.
pub(crate) fn pages_from(pages: &[Page], id: u64) -> &[Page]
    requires { AreLaid pages.now }
    ensures { EndsWith (pairs_of pages.now) id (pairs_of result.now) }
{
    &pages[page_place(pages, id)..]
}

/// The same pages, each with one more owner.
pub(crate) fn share(pages: &[Page], alloc: Global) -> Result<Vec<Page>, NoMemory>
    ensures { IfOk result (λ shared. shared.items ≡ pages.now) }
{
    let Ok(mut shared) = Vec::with_capacity(alloc, pages.len()) else {
        return Err(NoMemory);
    };
    for page in pages {
        if shared.push(page.share()?).is_err() {
            return Err(NoMemory);
        }
    }
    Ok(shared)
}

/// Puts a row last: in the last page, or in one of its own where that is full.
pub(crate) fn add(alloc: Global, pages: &mut Vec<Page>, id: u64, row: Row) -> Result<(), NoMemory>
    requires { AllByRecursion IsPage pages.old.items }
    ensures ok { OnOk result (pairs_of pages.new.items ≡ pairs_of pages.old.items ++ (id, row) ∷ []) }
    ensures err { OnErr result (pages.new.items ≡ pages.old.items) }
    ensures full { AllByRecursion IsPage pages.new.items }
{
    let count = pages.len();
    if count > 0 && pages[count - 1].pairs().len() < 128 {
        return pages[count - 1].push(id, row);
    }
    match pages.push(Page::new(alloc, id, row)?) {
        Ok(()) => Ok(()),
        Err(_) => Err(NoMemory),
    }
}

/// The place of an id's page, and its place there.
fn place_in(pages: &[Page], id: u64) -> (usize, usize)
    requires laid { AreLaid pages.now }
    requires there { has (pairs_of pages.now) id ≡ true }
    ensures page { result.0 < length pages.now }
    ensures row { result.1 < length (slice_index_or pages.now result.0 []) }
    ensures here { (slice_index_or (slice_index_or pages.now result.0 []) result.1 (0, [])).0 ≡ id }
    ensures stands { Stands pages.now id result.0 }
{
    let place = page_place(pages, id);
    (place, spot(pages[place].pairs(), id))
}

/// Puts another row under an id.
pub(crate) fn put(pages: &mut Vec<Page>, id: u64, row: Row) -> Result<(), NoMemory>
    requires laid { AreLaid pages.old.items }
    requires there { has (pairs_of pages.old.items) id ≡ true }
    ensures ok { OnOk result (pairs_of pages.new.items ≡ with_new (pairs_of pages.old.items) id row) }
    ensures err { OnErr result (pages.new.items ≡ pages.old.items) }
    ensures full { AllByRecursion IsPage pages.new.items }
{
    let (place, spot) = place_in(pages, id);
    pages[place].set(spot, id, row)
}

/// Takes an id's row out, and its page where that has no other.
pub(crate) fn remove(pages: &mut Vec<Page>, id: u64) -> Result<(), NoMemory>
    requires laid { AreLaid pages.old.items }
    requires there { has (pairs_of pages.old.items) id ≡ true }
    ensures ok { OnOk result (pairs_of pages.new.items ≡ without (pairs_of pages.old.items) id) }
    ensures err { OnErr result (pages.new.items ≡ pages.old.items) }
    ensures full { AllByRecursion IsPage pages.new.items }
{
    let (place, spot) = place_in(pages, id);
    if pages[place].pairs().len() == 1 {
        pages.remove(place);
        return Ok(());
    }
    pages[place].remove(spot)
}
