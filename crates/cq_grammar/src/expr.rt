use crate::name::Name;
use crate::query::Select;
use cq_value::{Boxed, Items, Text};

#[derive(Clone, Copy, Debug, PartialEq, Eq)]
pub enum Comparison {
    Equal,
    NotEqual,
    Less,
    LessOrEqual,
    Greater,
    GreaterOrEqual,
}

#[derive(Clone, Copy, Debug, PartialEq, Eq)]
pub enum AddOperator {
    Plus,
    Minus,
}

#[derive(Clone, Copy, Debug, PartialEq, Eq)]
pub enum MultiplyOperator {
    Times,
    Divide,
    Remainder,
}

#[derive(Clone, Copy, Debug, PartialEq, Eq)]
pub enum Aggregate {
    Count,
    Sum,
    Min,
    Max,
}

/// An expression as it is written: a variant for each production of the grammar, with its parts in order. `at` is the
/// place of its operator's token, and of its first token where it has none. A chain is one node, with its parts but the
/// first in `rest`; a chain of one part is that part.
#[cycle(ast)]
pub enum Expr {
    Or {
        first: Boxed<Expr>,
        rest: Items<Chained>,
    },
    And {
        first: Boxed<Expr>,
        rest: Items<Chained>,
    },
    Not {
        inner: Boxed<Expr>,
        at: u64,
    },
    /// `IS NULL` and `IS NOT NULL`, any number of times.
    Is {
        first: Boxed<Expr>,
        rest: Items<NullTest>,
    },
    Compare {
        left: Boxed<Expr>,
        operator: Comparison,
        right: Boxed<Expr>,
        at: u64,
    },
    /// IN or BETWEEN, with NOT before it where it is negated.
    Tested {
        operand: Boxed<Expr>,
        negated: bool,
        test: Test,
        at: u64,
    },
    Sum {
        first: Boxed<Expr>,
        rest: Items<Added>,
    },
    Product {
        first: Boxed<Expr>,
        rest: Items<Multiplied>,
    },
    Signed {
        sign: AddOperator,
        inner: Boxed<Expr>,
        at: u64,
    },
    Number {
        value: u64,
        at: u64,
    },
    Quoted {
        text: Text,
        at: u64,
    },
    Null {
        at: u64,
    },
    /// `column`
    Column {
        column: Name,
    },
    /// `relation.column`
    ColumnOf {
        relation: Name,
        column: Name,
    },
    /// An expression in brackets.
    Group {
        inner: Boxed<Expr>,
        at: u64,
    },
    Case {
        arms: Items<Arm>,
        otherwise: Option<Boxed<Expr>>,
        at: u64,
    },
    Coalesce {
        items: Items<Expr>,
        at: u64,
    },
    /// `COUNT(*)`
    CountAll {
        at: u64,
    },
    Aggregate {
        function: Aggregate,
        argument: Boxed<Expr>,
        at: u64,
    },
}

// A drop written by hand is a call: a derived one is written out in each function that lets a tree go, and proved there.
impl Drop for Expr {
    #[cycle(ast)]
    fn drop(self) {
        match self {
            Expr::Or { first, rest } => {
                drop(first);
                drop(rest);
            }
            Expr::And { first, rest } => {
                drop(first);
                drop(rest);
            }
            Expr::Not { inner, at: _ } => drop(inner),
            Expr::Is { first, rest } => {
                drop(first);
                drop(rest);
            }
            Expr::Compare {
                left,
                operator: _,
                right,
                at: _,
            } => {
                drop(left);
                drop(right);
            }
            Expr::Tested {
                operand,
                negated: _,
                test,
                at: _,
            } => {
                drop(operand);
                drop(test);
            }
            Expr::Sum { first, rest } => {
                drop(first);
                drop(rest);
            }
            Expr::Product { first, rest } => {
                drop(first);
                drop(rest);
            }
            Expr::Signed {
                sign: _,
                inner,
                at: _,
            } => drop(inner),
            Expr::Number { value: _, at: _ } => {}
            Expr::Quoted { text, at: _ } => drop(text),
            Expr::Null { at: _ } => {}
            Expr::Column { column } => drop(column),
            Expr::ColumnOf { relation, column } => {
                drop(relation);
                drop(column);
            }
            Expr::Group { inner, at: _ } => drop(inner),
            Expr::Case {
                arms,
                otherwise,
                at: _,
            } => {
                drop(arms);
                drop(otherwise);
            }
            Expr::Coalesce { items, at: _ } => drop(items),
            Expr::CountAll { at: _ } => {}
            Expr::Aggregate {
                function: _,
                argument,
                at: _,
            } => drop(argument),
        }
    }
}

/// What is asked of the operand of IN or BETWEEN.
#[cycle(ast)]
pub enum Test {
    /// `IN ( select )`
    InSelect { select: Boxed<Select> },
    /// `IN ( items )`
    InList { items: Items<Expr> },
    /// `BETWEEN low AND high`
    Between { low: Boxed<Expr>, high: Boxed<Expr> },
}

impl Drop for Test {
    #[cycle(ast)]
    fn drop(self) {
        match self {
            Test::InSelect { select } => drop(select),
            Test::InList { items } => drop(items),
            Test::Between { low, high } => {
                drop(low);
                drop(high);
            }
        }
    }
}

/// A later part of a chain of AND or OR, with the place of the word before it.
#[cycle(ast)]
#[derive(Drop)]
pub struct Chained {
    pub part: Expr,
    pub at: u64,
}

/// A later part of a sum, with the place of the sign before it.
#[cycle(ast)]
#[derive(Drop)]
pub struct Added {
    pub operator: AddOperator,
    pub term: Expr,
    pub at: u64,
}

/// A later part of a product, with the place of the sign before it.
#[cycle(ast)]
#[derive(Drop)]
pub struct Multiplied {
    pub operator: MultiplyOperator,
    pub factor: Expr,
    pub at: u64,
}

/// `WHEN condition THEN result`
#[cycle(ast)]
#[derive(Drop)]
pub struct Arm {
    pub condition: Expr,
    pub result: Expr,
}

/// `IS NULL`, or `IS NOT NULL` where it is negated.
#[derive(Drop)]
pub struct NullTest {
    pub negated: bool,
    pub at: u64,
}
