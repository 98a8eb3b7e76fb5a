ghost use Rattle.std.specs.Prelude.{◌≡◌, IfOk};
ghost use Rattle.cq_queries.specs.Relations.{listed};

use cq_value::{NoMemory, Row, Rows};
use std::alloc::Global;
use std::marker::Model;

/// Rows that are lent, or that are its own.
enum Held<'a> {
    Lent(&'a [Row]),
    Own(Rows),
}

impl<'a> Drop for Held<'a> {
    fn drop(self) {
        match self {
            Held::Lent(_) => {}
            Held::Own(rows) => drop(rows),
        }
    }
}

/// Copies of the rows.
fn copy_all(alloc: Global, rows: &[Row]) -> Result<Rows, NoMemory>
    ensures { IfOk result (λ all. all ≡ rows.now) }
{
    let mut all = Rows::with_room(alloc, rows.len() as u64)?;
    for row in rows {
        all.put(row.copy(alloc)?)?;
    }
    Ok(all)
}

impl<'a> Held<'a> {
    fn as_slice(&self) -> &[Row]
        ensures { result.now ≡ listed self.now }
    {
        match self {
            Held::Lent(rows) => rows,
            Held::Own(rows) => rows.as_slice(),
        }
    }

    /// The rows, copied where they are lent.
    fn into_rows(self, alloc: Global) -> Result<Rows, NoMemory>
        ensures { IfOk result (λ rows. rows ≡ listed self.entry) }
    {
        match self {
            Held::Lent(rows) => copy_all(alloc, rows),
            Held::Own(rows) => Ok(rows),
        }
    }
}

/// The rows of a FROM, lent where they are those of a table or of a result. Contracts see the rows.
#[derive(Drop)]
pub struct Relation<'a> {
    held: Held<'a>,
}

impl<'a> Model for Relation<'a> {
    ghost use Rattle.std.specs.Prelude.{List};
    ghost use Rattle.std.specs.Coded.{codes};
    ghost use Rattle.cq_value.specs.contracts.value.Value as value;
    ghost use Rattle.cq_meaning.specs.Values.{Row as TheRow};
    ghost use Rattle.cq_queries.specs.Relations.{listed};

    ghost Value = { List TheRow };

    ghost view = { λ r. listed r.held };

    ghost coded = { Prim.hlevel (codes, value.the_row.coded) };
}

impl<'a> Relation<'a> {
    pub fn lent(rows: &'a [Row]) -> Relation<'a>
        ensures { result ≡ rows.now }
    {
        Relation {
            held: Held::Lent(rows),
        }
    }

    pub fn own(rows: Rows) -> Relation<'a>
        ensures { result ≡ rows }
    {
        Relation {
            held: Held::Own(rows),
        }
    }

    pub fn as_slice(&self) -> &[Row]
        ensures { result.now ≡ self.now }
    {
        self.held.as_slice()
    }

    pub fn is_lent(&self) -> bool {
        matches!(self.held, Held::Lent(_))
    }

    /// The rows, copied where they are lent.
    pub fn into_rows(self, alloc: Global) -> Result<Rows, NoMemory>
        ensures { IfOk result (λ rows. rows ≡ self.entry) }
    {
        let Relation { held } = self;
        held.into_rows(alloc)
    }
}
