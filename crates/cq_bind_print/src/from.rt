//! The FROM of a query as it is written from left to right.

use crate::level::Level;
use crate::names::alias;
use crate::scope::{Phrase, Scope};
use cq_print::Draft;
use cq_token::Sign;
use cq_tree::Cond;
use cq_value::{Items, Names, NoMemory, Text};
use std::alloc::Global;

/// A relation of a FROM: its name, the place of its first column, and the names of its columns.
#[derive(Drop)]
pub(crate) struct Relation {
    pub alias: Text,
    pub first: u64,
    pub columns: Names,
}

/// The relations of a FROM that are written so far, with their columns, and the number of the next result.
#[derive(Drop)]
pub(crate) struct Source {
    pub tokens: Draft,
    pub relations: Items<Relation>,
    pub columns: Items<Phrase>,
    pub next: u64,
}

/// `relation.column`
pub(crate) fn column_of(alloc: Global, relation: &Text, name: &Text) -> Phrase {
    let mut tokens = Draft::new(alloc);
    tokens.word(relation.as_str());
    tokens.sign(Sign::Dot);
    tokens.word(name.as_str());
    Phrase {
        tokens,
        level: Level::Unary,
    }
}

impl Source {
    /// No relation yet.
    pub(crate) fn new(alloc: Global, next: u64) -> Source {
        Source {
            tokens: Draft::new(alloc),
            relations: Items::new(alloc),
            columns: Items::new(alloc),
            next,
        }
    }

    /// Writes the alias of the relation that was written last, which has these columns.
    pub(crate) fn named(&mut self, alloc: Global, columns: Result<Names, NoMemory>) {
        match (alias(alloc, self.relations.len()), columns) {
            (Ok(alias), Ok(columns)) => {
                self.tokens.word("as");
                self.tokens.word(alias.as_str());
                if self.put(alloc, alias, columns).is_err() {
                    self.tokens.give_up();
                }
            }
            _ => self.tokens.give_up(),
        }
    }

    /// Puts a relation and its columns last.
    fn put(&mut self, alloc: Global, alias: Text, columns: Names) -> Result<(), NoMemory> {
        let first = self.columns.len();
        for name in columns.as_slice() {
            self.columns.put(column_of(alloc, &alias, name))?;
        }
        self.relations.put(Relation {
            alias,
            first,
            columns,
        })
    }

    /// Writes the condition of the join behind which the FROM stands.
    pub(crate) fn on(&mut self, condition: &Cond) {
        self.tokens.word("on");
        let scope = Scope {
            columns: self.columns.as_slice(),
            subqueries: &[],
        };
        scope.cond(&mut self.tokens, condition, Level::Or);
    }
}
