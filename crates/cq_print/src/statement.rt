ghost use Rattle.std.specs.Prelude.{◌++◌, map, codes};
ghost use Rattle.cq_print.specs.Drafts.{Wrote};
ghost use Rattle.cq_token.specs.declared.sign.Sign.TheVariants as s;
ghost use Rattle.cq_grammar.specs.Spelling as spelled;
ghost use Rattle.cq_grammar.specs.Spelling.{word, sign, named, commas, in_brackets, list_behind, expr_spelling};

use crate::draft::Draft;
use crate::operators::type_word;
use cq_grammar::{
    Argument, Ast, ColumnDef, CommonTable, CopyOption, Expr, Literal, Name, Query, RowValues,
    SetClause, SettingValue,
};
use cq_token::Sign;
use cq_value::Items;

impl Draft {
    #[tactic(auto, unfolding(cq_grammar::specs::Spelling::spelling))]
    pub(crate) fn statement(&mut self, statement: &Ast)
        ensures { Wrote self.old (spelled.spelling statement.now) self.new }
    {
        match statement {
            Ast::Create {
                name,
                columns,
                key,
                ..
            } => self.create(name, columns, key),
            Ast::Insert {
                table,
                columns,
                rows,
                ..
            } => self.insert(table, columns, rows),
            Ast::Update {
                table,
                sets,
                filter,
                ..
            } => self.update(table, sets, filter),
            Ast::Delete { table, filter, .. } => self.delete(table, filter),
            Ast::Copy {
                table,
                columns,
                spelled,
                options,
                ..
            } => self.copy(table, columns, *spelled, options),
            Ast::Set {
                space,
                name,
                spelled,
                value,
                ..
            } => self.set(space, name, *spelled, value),
            Ast::Explain { query, .. } => {
                self.word("explain");
                self.query(query);
            }
            Ast::Call {
                function,
                arguments,
                ..
            } => self.call(function, arguments),
            Ast::Query { query } => self.query(query),
        }
    }

    fn create(&mut self, name: &Name, columns: &Items<ColumnDef>, key: &Items<Name>)
        ensures { Wrote self.old (word (codes "create") ++ ((word (codes "table") ++ named name.now) ++ in_brackets (commas (map spelled.column_def_spelling columns.now) ++ spelled.primary_key_spelling key.now))) self.new }
    {
        self.word("create");
        self.word("table");
        self.name(name);
        self.sign(Sign::Open);
        self.column_defs(columns);
        self.primary_key(key);
        self.sign(Sign::Close);
    }

    fn column_defs(&mut self, columns: &Items<ColumnDef>)
        ensures { Wrote self.old (commas (map spelled.column_def_spelling columns.now)) self.new }
    {
        if let Some((first, rest)) = columns.as_slice().split_first() {
            self.column_def(first);
            'rest: for column in rest {
                self.sign(Sign::Comma);
                self.column_def(column);
            }
        }
    }

    fn column_def(&mut self, column: &ColumnDef)
        ensures { Wrote self.old (spelled.column_def_spelling column.now) self.new }
    {
        self.name(&column.name);
        self.word(type_word(column.type_name));
        self.word_if(column.primary, "primary");
        self.word_if(column.primary, "key");
    }

    fn primary_key(&mut self, key: &Items<Name>)
        ensures { Wrote self.old (spelled.primary_key_spelling key.now) self.new }
    {
        if key.len() == 0 {
            return;
        }
        self.sign(Sign::Comma);
        self.word("primary");
        self.word("key");
        self.names(key);
    }

    /// Writes names in brackets, or nothing where there are none.
    fn names(&mut self, names: &Items<Name>)
        ensures { Wrote self.old (spelled.names_spelling names.now) self.new }
    {
        if let Some((first, rest)) = names.as_slice().split_first() {
            self.sign(Sign::Open);
            self.name(first);
            'rest: for name in rest {
                self.sign(Sign::Comma);
                self.name(name);
            }
            self.sign(Sign::Close);
        }
    }

    fn insert(&mut self, table: &Name, columns: &Items<Name>, rows: &Items<RowValues>)
        ensures { Wrote self.old (word (codes "insert") ++ ((word (codes "into") ++ named table.now) ++ (spelled.names_spelling columns.now ++ (word (codes "values") ++ commas (map spelled.row_values_spelling rows.now))))) self.new }
    {
        self.word("insert");
        self.word("into");
        self.name(table);
        self.names(columns);
        self.word("values");
        self.rows(rows);
    }

    fn rows(&mut self, rows: &Items<RowValues>)
        ensures { Wrote self.old (commas (map spelled.row_values_spelling rows.now)) self.new }
    {
        if let Some((first, rest)) = rows.as_slice().split_first() {
            self.exprs_in_brackets(&first.values);
            'rest: for row in rest {
                self.sign(Sign::Comma);
                self.exprs_in_brackets(&row.values);
            }
        }
    }

    fn update(&mut self, table: &Name, sets: &Items<SetClause>, filter: &Option<Expr>)
        ensures { Wrote self.old (word (codes "update") ++ (named table.now ++ ((word (codes "set") ++ commas (map spelled.set_clause_spelling sets.now)) ++ spelled.filter_spelling filter.now))) self.new }
    {
        self.word("update");
        self.name(table);
        self.word("set");
        self.sets(sets);
        self.kept(filter);
    }

    fn sets(&mut self, sets: &Items<SetClause>)
        ensures { Wrote self.old (commas (map spelled.set_clause_spelling sets.now)) self.new }
    {
        if let Some((first, rest)) = sets.as_slice().split_first() {
            self.set_clause(first);
            'rest: for clause in rest {
                self.sign(Sign::Comma);
                self.set_clause(clause);
            }
        }
    }

    fn set_clause(&mut self, clause: &SetClause)
        ensures { Wrote self.old (spelled.set_clause_spelling clause.now) self.new }
    {
        self.name(&clause.column);
        self.sign(Sign::Equal);
        self.expr(&clause.value);
    }

    /// Writes WHERE and its condition.
    fn kept(&mut self, filter: &Option<Expr>)
        ensures { Wrote self.old (spelled.filter_spelling filter.now) self.new }
    {
        match filter {
            Some(condition) => {
                self.word("where");
                self.expr(condition);
            }
            None => {}
        }
    }

    fn delete(&mut self, table: &Name, filter: &Option<Expr>)
        ensures { Wrote self.old (word (codes "delete") ++ ((word (codes "from") ++ named table.now) ++ spelled.filter_spelling filter.now)) self.new }
    {
        self.word("delete");
        self.word("from");
        self.name(table);
        self.kept(filter);
    }

    fn copy(
        &mut self,
        table: &Name,
        columns: &Items<Name>,
        written: bool,
        options: &Items<CopyOption>,
    )
        ensures { Wrote self.old (word (codes "copy") ++ (named table.now ++ (spelled.names_spelling columns.now ++ (word (codes "from") ++ (word (codes "stdin") ++ spelled.copy_options_spelling written options.now))))) self.new }
    {
        self.word("copy");
        self.name(table);
        self.names(columns);
        self.word("from");
        self.word("stdin");
        self.copy_options(written, options);
    }

    fn copy_options(&mut self, written: bool, options: &Items<CopyOption>)
        ensures { Wrote self.old (spelled.copy_options_spelling written options.now) self.new }
    {
        if let Some((first, rest)) = options.as_slice().split_first() {
            self.word_if(written, "with");
            self.sign(Sign::Open);
            self.copy_option(first);
            'rest: for option in rest {
                self.sign(Sign::Comma);
                self.copy_option(option);
            }
            self.sign(Sign::Close);
        }
    }

    fn copy_option(&mut self, option: &CopyOption)
        ensures { Wrote self.old (spelled.copy_option_spelling option.now) self.new }
    {
        match option {
            CopyOption::FormatCsv { .. } => {
                self.word("format");
                self.word("csv");
            }
            CopyOption::FormatText { .. } => {
                self.word("format");
                self.word("text");
            }
            CopyOption::Header { .. } => self.word("header"),
        }
    }

    fn set(&mut self, space: &Name, name: &Name, written: bool, value: &SettingValue)
        ensures { Wrote self.old (word (codes "set") ++ (named space.now ++ ((sign s.Dot ++ named name.now) ++ (spelled.to_spelling written ++ spelled.setting_value_spelling value.now)))) self.new }
    {
        self.word("set");
        self.name(space);
        self.sign(Sign::Dot);
        self.name(name);
        self.to_or_equal(written);
        self.setting_value(value);
    }

    fn to_or_equal(&mut self, written: bool)
        ensures { Wrote self.old (spelled.to_spelling written) self.new }
    {
        if written {
            self.word("to");
        } else {
            self.sign(Sign::Equal);
        }
    }

    fn setting_value(&mut self, value: &SettingValue)
        ensures { Wrote self.old (spelled.setting_value_spelling value.now) self.new }
    {
        match value {
            SettingValue::Number { value, .. } => self.number(*value),
            SettingValue::On { .. } => self.word("on"),
            SettingValue::Off { .. } => self.word("off"),
        }
    }

    fn call(&mut self, function: &Name, arguments: &Items<Argument>)
        ensures { Wrote self.old (word (codes "select") ++ (named function.now ++ in_brackets (commas (map spelled.argument_spelling arguments.now)))) self.new }
    {
        self.word("select");
        self.name(function);
        self.sign(Sign::Open);
        self.arguments(arguments);
        self.sign(Sign::Close);
    }

    fn arguments(&mut self, arguments: &Items<Argument>)
        ensures { Wrote self.old (commas (map spelled.argument_spelling arguments.now)) self.new }
    {
        if let Some((first, rest)) = arguments.as_slice().split_first() {
            self.argument(first);
            'rest: for argument in rest {
                self.sign(Sign::Comma);
                self.argument(argument);
            }
        }
    }

    fn argument(&mut self, argument: &Argument)
        ensures { Wrote self.old (spelled.argument_spelling argument.now) self.new }
    {
        self.argument_name(&argument.name);
        self.literal(&argument.value);
    }

    fn argument_name(&mut self, name: &Option<Name>)
        ensures { Wrote self.old (spelled.argument_name_spelling name.now) self.new }
    {
        match name {
            Some(name) => {
                self.name(name);
                self.sign(Sign::Arrow);
            }
            None => {}
        }
    }

    fn literal(&mut self, literal: &Literal)
        ensures { Wrote self.old (spelled.literal_spelling literal.now) self.new }
    {
        match literal {
            Literal::Quoted { text, .. } => self.quoted(text.as_str()),
            Literal::Number { value, .. } => self.number(*value),
        }
    }

    fn query(&mut self, query: &Query)
        ensures { Wrote self.old (spelled.query_spelling query.now) self.new }
    {
        self.common_tables(&query.tables);
        self.select(&query.select);
    }

    fn common_tables(&mut self, tables: &Items<CommonTable>)
        ensures { Wrote self.old (list_behind (word (codes "with")) (map spelled.common_table_spelling tables.now)) self.new }
    {
        if let Some((first, rest)) = tables.as_slice().split_first() {
            self.word("with");
            self.common_table(first);
            'rest: for table in rest {
                self.sign(Sign::Comma);
                self.common_table(table);
            }
        }
    }

    fn common_table(&mut self, table: &CommonTable)
        ensures { Wrote self.old (spelled.common_table_spelling table.now) self.new }
    {
        self.name(&table.name);
        self.word("as");
        self.sign(Sign::Open);
        self.select(&table.select);
        self.sign(Sign::Close);
    }
}
