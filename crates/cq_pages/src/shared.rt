ghost use Rattle.std.specs.Prelude.{◌≡◌, ◌++◌, length, map, IfOk, OnOk, IfSome};
ghost use Rattle.cq_value.specs.Tables.{rows_of};
ghost use Rattle.cq_pages.specs.Pages.{pairs_of};
ghost use Rattle.cq_pages.specs.Shared.{row_lent, rows_of_parts};

use crate::numbered::Numbered;
use crate::page::Page;
use cq_value::{Items, NoMemory, Row, Rows};
use std::alloc::Global;
use std::marker::Model;

/// A part of a table's rows: rows of its own, or those of a numbered table, whose pages it shares.
#[derive(Debug, Drop)]
enum Part {
    Own(Rows),
    Pages(Numbered),
}

/// The rows of a table as a read finds them, or several tables' rows one behind the other. Of a whole table no row is copied: its pages
/// are shared. Contracts see the rows.
#[derive(Debug, Drop)]
pub struct SharedRows {
    first: Rows,
    parts: Items<Part>,
}

impl Model for SharedRows {
    ghost use Rattle.std.specs.Prelude.{List, ◌++◌};
    ghost use Rattle.cq_value.specs.declared.value.Value.{Value as TheValue};
    ghost use Rattle.cq_pages.specs.Shared.{rows_of_parts};

    ghost Value = { List (List TheValue) };

    ghost view = { λ s. s.first ++ rows_of_parts s.parts };
}

/// A row that is lent.
#[derive(Clone, Copy, Debug)]
pub struct LentRow<'a> {
    pub row: &'a Row,
}

/// Puts the rows of a page last, lent.
fn lend_page<'a>(page: &'a [(u64, Row)], all: &mut Items<LentRow<'a>>) -> Result<(), NoMemory>
    ensures { OnOk result (map row_lent all.new ≡ map row_lent all.old ++ map (λ p. p.1) page.now) }
{
    for pair in page {
        all.put(LentRow { row: &pair.1 })?;
    }
    Ok(())
}

/// Puts the rows of pages last, lent.
fn lend_pages<'a>(pages: &'a [Page], all: &mut Items<LentRow<'a>>) -> Result<(), NoMemory>
    ensures { OnOk result (map row_lent all.new ≡ map row_lent all.old ++ map (λ p. p.1) (pairs_of pages.now)) }
{
    for page in pages {
        lend_page(page.pairs(), all)?;
    }
    Ok(())
}

/// Puts rows last, lent.
fn lend_rows<'a>(rows: &'a [Row], all: &mut Items<LentRow<'a>>) -> Result<(), NoMemory>
    ensures { OnOk result (map row_lent all.new ≡ map row_lent all.old ++ rows.now) }
{
    for row in rows {
        all.put(LentRow { row })?;
    }
    Ok(())
}

/// Puts the rows of parts last, lent.
fn lend_parts<'a>(parts: &'a [Part], all: &mut Items<LentRow<'a>>) -> Result<(), NoMemory>
    ensures { OnOk result (map row_lent all.new ≡ map row_lent all.old ++ rows_of_parts parts.now) }
{
    for part in parts {
        match part {
            Part::Own(rows) => lend_rows(rows.as_slice(), all)?,
            Part::Pages(table) => lend_pages(table.pages(), all)?,
        }
    }
    Ok(())
}

/// Copies of lent rows.
fn copy_all(alloc: Global, rows: &[LentRow<'_>]) -> Result<Rows, NoMemory>
    ensures { IfOk result (λ all. all ≡ map row_lent rows.now) }
{
    let mut all = Rows::with_room(alloc, rows.len() as u64)?;
    for lent in rows {
        all.put(lent.row.copy(alloc)?)?;
    }
    Ok(all)
}

/// How many rows parts have, at most the last u64.
fn count_of(parts: &[Part]) -> u64 {
    let mut count = 0_u64;
    for part in parts {
        count = count.saturating_add(match part {
            Part::Own(rows) => rows.len(),
            Part::Pages(table) => table.len(),
        });
    }
    count
}

impl SharedRows {
    /// These rows. Takes no memory.
    pub fn own(alloc: Global, rows: Rows) -> SharedRows
        ensures { result ≡ rows }
    {
        SharedRows {
            first: rows,
            parts: Items::new(alloc),
        }
    }

    /// The rows of a table, whose pages it shares.
    pub fn of_table(alloc: Global, table: Numbered) -> Result<SharedRows, NoMemory>
        ensures { IfOk result (λ rows. rows ≡ rows_of table) }
    {
        let mut parts = Items::new(alloc);
        parts.put(Part::Pages(table))?;
        Ok(SharedRows {
            first: Rows::new(alloc),
            parts,
        })
    }

    /// Puts rows behind these. For want of memory some of them may be there.
    pub fn append(&mut self, more: SharedRows) -> Result<(), NoMemory>
        ensures { OnOk result (self.new ≡ self.old ++ more) }
    {
        let SharedRows { first, parts } = more;
        self.parts.put(Part::Own(first))?;
        for part in parts.into_vec() {
            self.parts.put(part)?;
        }
        Ok(())
    }

    /// The rows, where all of them are its own.
    pub fn as_own(&self) -> Option<&[Row]>
        ensures { IfSome result (λ rows. rows.now ≡ self.now) }
    {
        if self.parts.as_slice().is_empty() {
            Some(self.first.as_slice())
        } else {
            None
        }
    }

    /// The rows, lent, in order. Copies no row.
    pub fn lend(&self, alloc: Global) -> Result<Items<LentRow<'_>>, NoMemory>
        ensures { IfOk result (λ all. map row_lent all ≡ self.now) }
    {
        let count = self
            .first
            .len()
            .saturating_add(count_of(self.parts.as_slice()));
        let mut all = Items::with_room(alloc, count)?;
        lend_rows(self.first.as_slice(), &mut all)?;
        lend_parts(self.parts.as_slice(), &mut all)?;
        Ok(all)
    }

    /// Copies of the rows.
    pub fn copy_rows(&self, alloc: Global) -> Result<Rows, NoMemory>
        ensures { IfOk result (λ rows. rows ≡ self.now) }
    {
        let lent = self.lend(alloc)?;
        copy_all(alloc, lent.as_slice())
    }

    /// The rows as a list of its own, copied where pages are shared.
    pub fn into_rows(self, alloc: Global) -> Result<Rows, NoMemory>
        ensures { IfOk result (λ rows. rows ≡ self) }
    {
        if self.parts.as_slice().is_empty() {
            let SharedRows { first, parts } = self;
            drop(parts);
            return Ok(first);
        }
        self.copy_rows(alloc)
    }
}
