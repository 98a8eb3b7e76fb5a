use crate::expr::Expr;
use crate::name::Name;
use cq_value::{Boxed, Items};

/// A SELECT. `at` is the place of its first token.
#[cycle(ast)]
pub struct Select {
    pub distinct: bool,
    pub items: Items<Item>,
    /// The FROM: relations with commas between, each with its joins.
    pub from: Items<From>,
    pub filter: Option<Boxed<Expr>>,
    pub groups: Option<GroupBy>,
    pub having: Option<Having>,
    /// The keys of ORDER BY; none where there is no ORDER BY.
    pub order: Items<OrderKey>,
    pub limit: Option<Count>,
    pub offset: Option<Count>,
    pub at: u64,
}

// A drop written by hand is a call: a derived one is written out in each function that lets a tree go, and proved there.
impl Drop for Select {
    #[cycle(ast)]
    fn drop(self) {
        let Select {
            distinct: _,
            items,
            from,
            filter,
            groups,
            having,
            order,
            limit,
            offset,
            at: _,
        } = self;
        drop(items);
        drop(from);
        drop(filter);
        drop(groups);
        drop(having);
        drop(order);
        drop(limit);
        drop(offset);
    }
}

/// An item of a select list.
#[cycle(ast)]
pub enum Item {
    /// `*`
    All { at: u64 },
    /// `relation.*`
    AllOf { relation: Name },
    /// `value AS name`
    Value { value: Expr, name: Option<Name> },
}

impl Drop for Item {
    #[cycle(ast)]
    fn drop(self) {
        match self {
            Item::All { at: _ } => {}
            Item::AllOf { relation } => drop(relation),
            Item::Value { value, name } => {
                drop(value);
                drop(name);
            }
        }
    }
}

/// A relation of a FROM with its joins.
#[cycle(ast)]
#[derive(Drop)]
pub struct From {
    pub first: Relation,
    pub joins: Items<Join>,
}

/// A table by its name, or a subquery. `spelled` says whether AS stands before the alias.
#[cycle(ast)]
pub enum Relation {
    Table {
        name: Name,
    },
    TableAs {
        name: Name,
        spelled: bool,
        alias: Name,
    },
    Subquery {
        select: Boxed<Select>,
        spelled: bool,
        alias: Name,
        at: u64,
    },
}

impl Drop for Relation {
    #[cycle(ast)]
    fn drop(self) {
        match self {
            Relation::Table { name } => drop(name),
            Relation::TableAs {
                name,
                spelled: _,
                alias,
            } => {
                drop(name);
                drop(alias);
            }
            Relation::Subquery {
                select,
                spelled: _,
                alias,
                at: _,
            } => {
                drop(select);
                drop(alias);
            }
        }
    }
}

/// A join to what stands before it. `spelled` says whether INNER or OUTER is written.
#[cycle(ast)]
pub enum Join {
    Inner {
        spelled: bool,
        relation: Relation,
        on: Expr,
        at: u64,
    },
    Left {
        spelled: bool,
        relation: Relation,
        on: Expr,
        at: u64,
    },
    Cross {
        relation: Relation,
        at: u64,
    },
}

impl Drop for Join {
    #[cycle(ast)]
    fn drop(self) {
        match self {
            Join::Inner {
                spelled: _,
                relation,
                on,
                at: _,
            } => {
                drop(relation);
                drop(on);
            }
            Join::Left {
                spelled: _,
                relation,
                on,
                at: _,
            } => {
                drop(relation);
                drop(on);
            }
            Join::Cross { relation, at: _ } => drop(relation),
        }
    }
}

#[cycle(ast)]
#[derive(Drop)]
pub struct GroupBy {
    pub keys: Items<Expr>,
    pub at: u64,
}

#[cycle(ast)]
#[derive(Drop)]
pub struct Having {
    pub condition: Expr,
    pub at: u64,
}

#[derive(Clone, Copy, Debug, PartialEq, Eq)]
pub enum Direction {
    Ascending,
    Descending,
}

/// A key of ORDER BY, with its direction where it is written.
#[cycle(ast)]
#[derive(Drop)]
pub struct OrderKey {
    pub key: Expr,
    pub direction: Option<Direction>,
}

/// The number of LIMIT or OFFSET.
#[derive(Drop)]
pub struct Count {
    pub value: u64,
    pub at: u64,
}

/// `name AS ( select )`
#[derive(Drop)]
pub struct CommonTable {
    pub name: Name,
    pub select: Select,
}

/// `WITH tables select`, with no tables where there is no WITH.
#[derive(Drop)]
pub struct Query {
    pub tables: Items<CommonTable>,
    pub select: Select,
}
