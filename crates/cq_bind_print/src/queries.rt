//! Queries, each with its FROM and its IN subqueries.

use crate::from::Source;
use crate::names::{common_name, names_of, table};
use crate::scope::Subquery;
use crate::selects::select;
use cq_catalog::Catalog;
use cq_print::Draft;
use cq_token::Sign;
use cq_tree::{FromTree, Query};
use cq_value::{Items, NoMemory};
use std::alloc::Global;

/// The tables that there are, and the CTEs of the statement.
#[derive(Drop)]
struct World<'a> {
    alloc: Global,
    catalog: &'a Catalog,
    ctes: &'a [Query],
}

impl World<'_> {
    fn table(&self, source: &mut Source, number: u32) {
        let Some(info) = table(self.catalog, number) else {
            return;
        };
        source.tokens.word(info.name.as_str());
        source.named(self.alloc, names_of(self.alloc, info.columns.as_slice()));
    }

    /// Writes the name of the CTE in this place.
    fn common_name(&self, out: &mut Draft, place: u64) {
        match common_name(self.alloc, self.catalog, place) {
            Ok(name) => out.word(name.as_str()),
            Err(NoMemory) => out.give_up(),
        }
    }

    fn common_table(&self, source: &mut Source, number: u32) {
        let Some(cte) = self.ctes.get(number as usize) else {
            return;
        };
        self.common_name(&mut source.tokens, u64::from(number));
        source.named(self.alloc, cte.names.copy(self.alloc));
    }

    /// Writes a FROM that is one relation. A join on the right of another is read of no statement.
    #[cycle(query)]
    fn relation(&self, source: &mut Source, f: &FromTree) {
        match f {
            FromTree::Table(number, _) => self.table(source, *number),
            FromTree::Result(number, _) => self.common_table(source, *number),
            FromTree::Sub(q) => {
                let q = q.get();
                source.tokens.sign(Sign::Open);
                source.next = self.query(&mut source.tokens, q, source.next);
                source.tokens.sign(Sign::Close);
                source.named(self.alloc, q.names.copy(self.alloc));
            }
            FromTree::Cross(..) | FromTree::Inner(..) | FromTree::Left(..) => {}
        }
    }

    /// Writes a FROM as a relation with its joins.
    #[cycle(query)]
    fn joined(&self, source: &mut Source, f: &FromTree) {
        match f {
            FromTree::Cross(a, b) => {
                self.joined(source, a.get());
                source.tokens.word("cross");
                source.tokens.word("join");
                self.relation(source, b.get());
            }
            FromTree::Inner(a, b, on) => {
                self.joined(source, a.get());
                source.tokens.word("join");
                self.relation(source, b.get());
                source.on(on);
            }
            FromTree::Left(a, b, on) => {
                self.joined(source, a.get());
                source.tokens.word("left");
                source.tokens.word("join");
                self.relation(source, b.get());
                source.on(on);
            }
            FromTree::Table(..) | FromTree::Result(..) | FromTree::Sub(_) => self.relation(
                source, f,
            ),
        }
    }

    /// Writes a FROM as parts with commas between.
    #[cycle(query)]
    fn parts(&self, source: &mut Source, f: &FromTree) {
        match f {
            FromTree::Cross(a, b) => {
                self.parts(source, a.get());
                source.tokens.sign(Sign::Comma);
                self.joined(source, b.get());
            }
            f => self.joined(source, f),
        }
    }

    /// The IN subqueries of a SELECT, of which the first has this number, and the number behind their results.
    #[cycle(query)]
    fn subqueries(&self, first: u64, subs: &[Query]) -> Result<(Items<Subquery>, u64), NoMemory> {
        let mut all = Items::new(self.alloc);
        let mut number = first;
        for sub in subs {
            let mut select = Draft::new(self.alloc);
            let Some(inside) = number.checked_add(1) else {
                return Err(NoMemory);
            };
            let next = self.query(&mut select, sub, inside);
            all.put(Subquery { number, select })?;
            number = next;
        }
        Ok((all, number))
    }

    /// Writes a query, where the first result in it has this number. Gives the number behind them.
    #[cycle(query)]
    fn query(&self, out: &mut Draft, q: &Query, first: u64) -> u64 {
        let mut source = Source::new(self.alloc, first);
        self.parts(&mut source, &q.from);
        match self.subqueries(source.next, q.subs.as_slice()) {
            Ok((subqueries, next)) => {
                select(self.alloc, out, q, &source, subqueries.as_slice());
                next
            }
            Err(NoMemory) => {
                out.give_up();
                first
            }
        }
    }

    /// Writes WITH and the CTEs. Gives the number behind their results.
    fn with(&self, out: &mut Draft) -> u64 {
        let mut next = self.ctes.len() as u64;
        for (place, cte) in self.ctes.iter().enumerate() {
            if place == 0 {
                out.word("with");
            } else {
                out.sign(Sign::Comma);
            }
            self.common_name(out, place as u64);
            out.word("as");
            out.sign(Sign::Open);
            next = self.query(out, cte, next);
            out.sign(Sign::Close);
        }
        next
    }
}

/// Writes the query of a statement.
pub(crate) fn statement_query(alloc: Global, out: &mut Draft, catalog: &Catalog, q: &Query) {
    let world = World {
        alloc,
        catalog,
        ctes: q.ctes.as_slice(),
    };
    let first = world.with(out);
    world.query(out, q, first);
}
