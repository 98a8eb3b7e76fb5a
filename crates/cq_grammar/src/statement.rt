use crate::expr::Expr;
use crate::name::Name;
use crate::query::Query;
use cq_value::{Items, Text};

/// A statement as it is written: a variant for each production of the grammar, with its parts in order. `at` is the place
/// of its first token.
pub enum Ast {
    /// `CREATE TABLE name ( columns, PRIMARY KEY ( key ) )`; `key` is empty where that last part isn't written.
    Create {
        name: Name,
        columns: Items<ColumnDef>,
        key: Items<Name>,
        at: u64,
    },
    /// `INSERT INTO table ( columns ) VALUES rows`; `columns` is empty where no list is written.
    Insert {
        table: Name,
        columns: Items<Name>,
        rows: Items<RowValues>,
        at: u64,
    },
    Update {
        table: Name,
        sets: Items<SetClause>,
        filter: Option<Expr>,
        at: u64,
    },
    Delete {
        table: Name,
        filter: Option<Expr>,
        at: u64,
    },
    /// `COPY table ( columns ) FROM STDIN WITH ( options )`; `spelled` says whether WITH is written.
    Copy {
        table: Name,
        columns: Items<Name>,
        spelled: bool,
        options: Items<CopyOption>,
        at: u64,
    },
    /// `SET space . name TO value`; `spelled` says whether TO is written, and not `=`.
    Set {
        space: Name,
        name: Name,
        spelled: bool,
        value: SettingValue,
        at: u64,
    },
    Explain {
        query: Query,
        at: u64,
    },
    /// `SELECT function ( arguments )`
    Call {
        function: Name,
        arguments: Items<Argument>,
        at: u64,
    },
    Query {
        query: Query,
    },
}

// A drop written by hand is a call: a derived one is written out in each function that lets a tree go, and proved there.
impl Drop for Ast {
    fn drop(self) {
        match self {
            Ast::Create {
                name,
                columns,
                key,
                at: _,
            } => {
                drop(name);
                drop(columns);
                drop(key);
            }
            Ast::Insert {
                table,
                columns,
                rows,
                at: _,
            } => {
                drop(table);
                drop(columns);
                drop(rows);
            }
            Ast::Update {
                table,
                sets,
                filter,
                at: _,
            } => {
                drop(table);
                drop(sets);
                drop(filter);
            }
            Ast::Delete {
                table,
                filter,
                at: _,
            } => {
                drop(table);
                drop(filter);
            }
            Ast::Copy {
                table,
                columns,
                spelled: _,
                options,
                at: _,
            } => {
                drop(table);
                drop(columns);
                drop(options);
            }
            Ast::Set {
                space,
                name,
                spelled: _,
                value,
                at: _,
            } => {
                drop(space);
                drop(name);
                drop(value);
            }
            Ast::Explain { query, at: _ } => drop(query),
            Ast::Call {
                function,
                arguments,
                at: _,
            } => {
                drop(function);
                drop(arguments);
            }
            Ast::Query { query } => drop(query),
        }
    }
}

#[derive(Clone, Copy, Debug, PartialEq, Eq)]
pub enum TypeName {
    Bigint,
    Integer,
    Int,
    Text,
}

/// `name type PRIMARY KEY`
#[derive(Drop)]
pub struct ColumnDef {
    pub name: Name,
    pub type_name: TypeName,
    pub primary: bool,
}

/// A row of VALUES. `at` is the place of its bracket.
#[derive(Drop)]
pub struct RowValues {
    pub values: Items<Expr>,
    pub at: u64,
}

/// `column = value`
#[derive(Drop)]
pub struct SetClause {
    pub column: Name,
    pub value: Expr,
}

#[derive(Drop)]
pub enum CopyOption {
    FormatCsv { at: u64 },
    FormatText { at: u64 },
    Header { at: u64 },
}

#[derive(Drop)]
pub enum SettingValue {
    Number { value: u64, at: u64 },
    On { at: u64 },
    Off { at: u64 },
}

#[derive(Drop)]
pub enum Literal {
    Quoted { text: Text, at: u64 },
    Number { value: u64, at: u64 },
}

/// `name => value`, or the value alone.
#[derive(Drop)]
pub struct Argument {
    pub name: Option<Name>,
    pub value: Literal,
}
