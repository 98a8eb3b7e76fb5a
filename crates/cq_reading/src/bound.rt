use cq_tree::{Aggs, Cond, Expr, Exprs, FromTree, Keys, Queries, Query};
use cq_value::{Items, Names, Text, With};

/// The type of a value in an expression. NULL fits where a number or a text is taken.
#[derive(Clone, Copy, Debug, PartialEq, Eq)]
pub enum Type {
    Number,
    Text,
    Null,
}

/// What an expression stands for: a value, with its type and its width in bits, or a condition.
#[derive(Debug, Drop)]
pub enum Bound {
    Value(Expr, Type, u32),
    Truth(Cond),
}

/// A column in reach: the name of its relation, its own, its type and its width.
#[derive(Debug, Drop)]
pub struct Source {
    pub relation: Text,
    pub name: Text,
    pub kind: Type,
    pub width: u32,
}

pub type Sources = Items<Source>;

/// An output of a query.
#[derive(Debug, Drop)]
pub struct Output {
    pub name: Text,
    pub kind: Type,
    pub width: u32,
}

pub type Outputs = Items<Output>;

/// A CTE in reach: its name, its outputs, and whether it comes to more than one relation.
#[derive(Debug, Drop)]
pub struct Common {
    pub name: Text,
    pub outputs: Outputs,
    pub joined: bool,
}

pub type Commons = Items<Common>;

/// What the walk has found so far: how many results have their numbers and how many SELECTs it has come to, in the whole
/// statement; and the IN subqueries and the aggregates of the present SELECT.
#[derive(Debug, Drop)]
pub struct Found {
    pub results: u32,
    pub blocks: u32,
    pub subs: Queries,
    pub aggs: Aggs,
}

/// What the walk over a SELECT gives: its query, its outputs, and whether its FROM comes to more than one relation.
#[derive(Debug, Drop)]
pub struct Block {
    pub query: Query,
    pub outputs: Outputs,
    pub joined: bool,
}

/// Relations that are joined: their tree, the columns that they bring in reach, their names, and whether they come to more than
/// one.
#[derive(Debug, Drop)]
pub struct Relations {
    pub tree: FromTree,
    pub columns: Sources,
    pub names: Names,
    pub joined: bool,
}

/// An output that is bound, with its name.
#[derive(Debug, Drop)]
pub struct Shown {
    pub title: Text,
    pub bound: Bound,
}

pub type ShownList = Items<Shown>;

/// The items so far, of which the first are the outputs, and the keys of ORDER BY so far.
#[derive(Debug, Drop)]
pub struct Ordered {
    pub items: Exprs,
    pub keys: Keys,
}

/// The options of `create_distributed_table`.
#[derive(Debug, Drop)]
pub struct Options {
    pub count: Option<u32>,
    pub with: With,
}
