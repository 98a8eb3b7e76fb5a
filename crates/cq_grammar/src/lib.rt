//! The grammar of SQL statements: its syntax trees, the words and signs that it is made of, and the definition of which
//! tokens spell which tree. The parser and the printer stand in crates above.
#![tactic(auto)]

mod error;
mod expr;
mod kind;
mod name;
mod query;
mod rule;
mod statement;

pub use error::Refusal;
pub use expr::{
    AddOperator, Added, Aggregate, Arm, Chained, Comparison, Expr, Multiplied, MultiplyOperator,
    NullTest, Test,
};
pub use kind::Kind;
pub use name::Name;
pub use query::{
    CommonTable, Count, Direction, From, GroupBy, Having, Item, Join, OrderKey, Query, Relation,
    Select,
};
pub use rule::Rule;
pub use statement::{
    Argument, Ast, ColumnDef, CopyOption, Literal, RowValues, SetClause, SettingValue, TypeName,
};
