ghost use Rattle.std.specs.Prelude.{◌≡◌, ℕ, ⊤};
ghost use Rattle.cq_grammar.specs.Words as spec;
ghost use Rattle.cq_grammar.specs.Nodes as node;
ghost use Rattle.cq_grammar.specs.declared.rule.Rule.TheVariants.{Or};
ghost use Rattle.cq_grammar.specs.Grammar as grammar;
ghost use Rattle.cq_grammar.specs.Read as read;
ghost use Rattle.cq_grammar.specs.Descent as descent;
ghost use Rattle.cq_grammar.specs.Reading as reading;
ghost use Rattle.cq_parse.specs.Limit.{limited, behind_comma, column_item};
ghost use Rattle.cq_parse_steps.specs.Reads.{Reads};

use cq_grammar::{
    Argument, Ast, ColumnDef, CommonTable, CopyOption, Expr, Kind, Literal, Name, Query, Refusal,
    RowValues, Rule, Select, SetClause, SettingValue, TypeName,
};
use cq_parse_calls::{Phrase, list_of};
use cq_parse_select::{expr, select};
use cq_parse_steps::{NAMES, Parser};
use cq_value::Items;

/// The greatest depth of a token.
pub const MAX_DEPTH: usize = 64;

/// With what an argument of a call begins.
const ARGUMENT_WORDS: &[Kind] = &[
    Kind::Quoted,
    Kind::Number,
    Kind::Name,
    Kind::Bigint,
    Kind::Csv,
    Kind::Format,
    Kind::Header,
    Kind::Int,
    Kind::Integer,
    Kind::Off,
    Kind::Stdin,
    Kind::Text,
    Kind::Call,
];

/// A name of a table, a column or a function.
fn name(parser: &mut Parser<'_>) -> Result<Name, Refusal>
    ensures { Reads (descent.named spec.names parser.old) result parser.new }
{
    parser.named(NAMES)
}

#[tactic(auto, unfolding(cq_grammar::specs::Reading::format_option))]
fn format_option(parser: &mut Parser<'_>) -> Result<CopyOption, Refusal>
    ensures { Reads (reading.format_option parser.old) result parser.new }
{
    let at = parser.the(Kind::Format)?;
    let (format, _) = parser.some_of(&[Kind::Csv, Kind::Text])?;
    Ok(match format {
        Kind::Text => CopyOption::FormatText { at },
        _ => CopyOption::FormatCsv { at },
    })
}

#[tactic(auto, unfolding(cq_grammar::specs::Reading::setting_value))]
fn setting_value(parser: &mut Parser<'_>) -> Result<SettingValue, Refusal>
    ensures { Reads (reading.setting_value parser.old) result parser.new }
{
    if parser.sees(&[Kind::Number]) {
        let number = parser.a_number()?;
        return Ok(SettingValue::Number {
            value: number.value,
            at: number.at,
        });
    }
    if parser.sees(&[Kind::On]) {
        let at = parser.the(Kind::On)?;
        return Ok(SettingValue::On { at });
    }
    let at = parser.the(Kind::Off)?;
    Ok(SettingValue::Off { at })
}

#[tactic(auto, unfolding(cq_grammar::specs::Reading::set))]
fn set(parser: &mut Parser<'_>) -> Result<Ast, Refusal>
    ensures { Reads (reading.set parser.old) result parser.new }
{
    let at = parser.the(Kind::Set)?;
    let space = name(parser)?;
    parser.the(Kind::Dot)?;
    let name = name(parser)?;
    let (word, _) = parser.some_of(&[Kind::To, Kind::Equal])?;
    let value = setting_value(parser)?;
    Ok(Ast::Set {
        space,
        name,
        spelled: word == Kind::To,
        value,
        at,
    })
}

#[tactic(auto, unfolding(cq_grammar::specs::Reading::argument_value))]
fn argument_value(parser: &mut Parser<'_>) -> Result<Literal, Refusal>
    ensures { Reads (reading.argument_value parser.old) result parser.new }
{
    if parser.sees(&[Kind::Quoted]) {
        let quoted = parser.a_quoted()?;
        return Ok(Literal::Quoted {
            text: quoted.text,
            at: quoted.at,
        });
    }
    let number = parser.a_number()?;
    Ok(Literal::Number {
        value: number.value,
        at: number.at,
    })
}

#[tactic(auto, unfolding(cq_grammar::specs::Reading::argument_name))]
fn argument_name(parser: &mut Parser<'_>) -> Result<Name, Refusal>
    ensures { Reads (reading.argument_name parser.old) result parser.new }
{
    let found = name(parser)?;
    parser.the(Kind::Arrow)?;
    Ok(found)
}

#[tactic(auto, unfolding(cq_grammar::specs::Reading::primary_words))]
fn primary_words(parser: &mut Parser<'_>) -> Result<(u64, u64), Refusal>
    ensures { Reads (reading.primary_words parser.old) result parser.new }
{
    let primary = parser.the(Kind::Primary)?;
    let key = parser.the(Kind::Key)?;
    Ok((primary, key))
}

fn type_of(kind: Kind) -> TypeName
    ensures { result ≡ node.type_of kind }
{
    match kind {
        Kind::Integer => TypeName::Integer,
        Kind::Int => TypeName::Int,
        Kind::Text => TypeName::Text,
        _ => TypeName::Bigint,
    }
}

#[tactic(auto, unfolding(cq_grammar::specs::Reading::column_def))]
fn column_def(parser: &mut Parser<'_>) -> Result<ColumnDef, Refusal>
    ensures { Reads (reading.column_def parser.old) result parser.new }
{
    let name = name(parser)?;
    let (word, _) = parser.some_of(&[Kind::Bigint, Kind::Integer, Kind::Int, Kind::Text])?;
    let primary = parser.sees(&[Kind::Primary]);
    if primary {
        primary_words(parser)?;
    }
    Ok(ColumnDef {
        name,
        type_name: type_of(word),
        primary,
    })
}

/// What stands between the commas of a list of names.
#[derive(Drop)]
struct NamePhrase;

impl Phrase for NamePhrase {
    type Tree = Name;

    ghost reader = { λ _ _. descent.named spec.names };

    ghost callable = { λ _. ⊤ };

    fn phrase(&self, parser: &mut Parser<'_>, _before: usize) -> Result<Name, Refusal> {
        name(parser)
    }
}

fn names(parser: &mut Parser<'_>) -> Result<Items<Name>, Refusal>
    ensures { Reads (descent.list (λ _. descent.named spec.names) parser.old) result parser.new }
{
    list_of(&NamePhrase, parser)
}

/// What stands between the commas of the options of a COPY.
#[derive(Drop)]
struct OptionPhrase;

impl Phrase for OptionPhrase {
    type Tree = CopyOption;

    ghost reader = { λ _ _. reading.copy_option };

    ghost callable = { λ _. ⊤ };

    #[tactic(auto, unfolding(cq_grammar::specs::Reading::copy_option))]
    fn phrase(&self, parser: &mut Parser<'_>, _before: usize) -> Result<CopyOption, Refusal> {
        if parser.sees(&[Kind::Format]) {
            return format_option(parser);
        }
        let at = parser.the(Kind::Header)?;
        Ok(CopyOption::Header { at })
    }
}

fn options(parser: &mut Parser<'_>) -> Result<Items<CopyOption>, Refusal>
    ensures { Reads (descent.list (λ _. reading.copy_option) parser.old) result parser.new }
{
    list_of(&OptionPhrase, parser)
}

/// What stands between the commas of a call.
#[derive(Drop)]
struct ArgumentPhrase;

impl Phrase for ArgumentPhrase {
    type Tree = Argument;

    ghost reader = { λ _ _. reading.argument };

    ghost callable = { λ _. ⊤ };

    #[tactic(auto, unfolding(cq_grammar::specs::Reading::argument))]
    fn phrase(&self, parser: &mut Parser<'_>, _before: usize) -> Result<Argument, Refusal> {
        let name = if parser.sees(NAMES) {
            Some(argument_name(parser)?)
        } else {
            None
        };
        let value = argument_value(parser)?;
        Ok(Argument { name, value })
    }
}

fn argument_list(parser: &mut Parser<'_>) -> Result<Items<Argument>, Refusal>
    ensures { Reads (descent.list (λ _. reading.argument) parser.old) result parser.new }
{
    list_of(&ArgumentPhrase, parser)
}

#[tactic(auto, unfolding(cq_grammar::specs::Reading::name_list))]
fn name_list(parser: &mut Parser<'_>) -> Result<Items<Name>, Refusal>
    ensures { Reads (reading.name_list parser.old) result parser.new }
{
    parser.the(Kind::Open)?;
    let names = names(parser)?;
    parser.the(Kind::Close)?;
    Ok(names)
}

#[tactic(auto, unfolding(cq_grammar::specs::Reading::optional_names))]
fn optional_names(parser: &mut Parser<'_>) -> Result<Items<Name>, Refusal>
    ensures { Reads (reading.optional_names parser.old) result parser.new }
{
    if parser.sees(&[Kind::Open]) {
        name_list(parser)
    } else {
        Ok(Items::new(parser.alloc()))
    }
}

#[tactic(auto, unfolding(cq_grammar::specs::Reading::key_list))]
fn key_list(parser: &mut Parser<'_>) -> Result<Items<Name>, Refusal>
    ensures { Reads (reading.key_list parser.old) result parser.new }
{
    parser.the(Kind::Comma)?;
    parser.the(Kind::Primary)?;
    parser.the(Kind::Key)?;
    name_list(parser)
}

#[tactic(auto, unfolding(cq_grammar::specs::Reading::primary_key))]
fn primary_key(parser: &mut Parser<'_>) -> Result<Items<Name>, Refusal>
    ensures { Reads (reading.primary_key parser.old) result parser.new }
{
    if parser.sees(&[Kind::Comma]) {
        key_list(parser)
    } else {
        Ok(Items::new(parser.alloc()))
    }
}

fn column_item(parser: &mut Parser<'_>) -> Result<ColumnDef, Refusal>
    ensures { (before : ℕ) → Reads (column_item before parser.old) result parser.new }
{
    parser.the(Kind::Comma)?;
    column_def(parser)
}

/// Puts the next columns behind `front`. A comma is followed by a column where a name comes behind it. The tokens bound
/// the turns, since each column takes one or more.
fn more_columns(
    parser: &mut Parser<'_>,
    front: Items<ColumnDef>,
) -> Result<Items<ColumnDef>, Refusal>
    ensures { Reads (read.before front (read.many behind_comma column_item 1 parser.old)) result parser.new }
{
    let mut found = front;
    'columns: for _turn in 0..parser.len() {
        if !parser.sees_two(&[Kind::Comma], NAMES) {
            break;
        }
        let next = column_item(parser)?;
        found.put(next)?;
    }
    Ok(found)
}

fn column_defs(parser: &mut Parser<'_>) -> Result<Items<ColumnDef>, Refusal>
    ensures { Reads (reading.column_defs parser.old) result parser.new }
{
    let first = column_def(parser)?;
    let mut front = Items::new(parser.alloc());
    front.put(first)?;
    more_columns(parser, front)
}

#[tactic(auto, unfolding(cq_grammar::specs::Reading::table_columns))]
fn table_columns(parser: &mut Parser<'_>) -> Result<(Items<ColumnDef>, Items<Name>), Refusal>
    ensures { Reads (reading.table_columns parser.old) result parser.new }
{
    let columns = column_defs(parser)?;
    let key = primary_key(parser)?;
    Ok((columns, key))
}

#[tactic(auto, unfolding(cq_grammar::specs::Reading::create))]
fn create(parser: &mut Parser<'_>) -> Result<Ast, Refusal>
    ensures { Reads (reading.create parser.old) result parser.new }
{
    let at = parser.the(Kind::Create)?;
    parser.the(Kind::Table)?;
    let name = name(parser)?;
    parser.the(Kind::Open)?;
    let (columns, key) = table_columns(parser)?;
    parser.the(Kind::Close)?;
    Ok(Ast::Create {
        name,
        columns,
        key,
        at,
    })
}

/// The options of a COPY, and whether WITH stands before them.
#[tactic(auto, unfolding(cq_grammar::specs::Reading::option_list))]
fn option_list(parser: &mut Parser<'_>) -> Result<(Option<u64>, Items<CopyOption>), Refusal>
    ensures { Reads (reading.option_list parser.old) result parser.new }
{
    let word = parser.optional_the(Kind::With)?;
    parser.the(Kind::Open)?;
    let options = options(parser)?;
    parser.the(Kind::Close)?;
    Ok((word, options))
}

#[tactic(auto, unfolding(cq_grammar::specs::Reading::copy_options))]
fn copy_options(parser: &mut Parser<'_>) -> Result<(bool, Items<CopyOption>), Refusal>
    ensures { Reads (read.made (λ o. (node.is_spelled o, node.options_of o)) reading.copy_options parser.old) result parser.new }
{
    if !parser.sees(&[Kind::With, Kind::Open]) {
        return Ok((false, Items::new(parser.alloc())));
    }
    let (word, options) = option_list(parser)?;
    Ok((word.is_some(), options))
}

#[tactic(auto, unfolding(cq_grammar::specs::Reading::copy))]
fn copy(parser: &mut Parser<'_>) -> Result<Ast, Refusal>
    ensures { Reads (reading.copy parser.old) result parser.new }
{
    let at = parser.the(Kind::Copy)?;
    let table = name(parser)?;
    let columns = optional_names(parser)?;
    parser.the(Kind::From)?;
    parser.the(Kind::Stdin)?;
    let (spelled, options) = copy_options(parser)?;
    Ok(Ast::Copy {
        table,
        columns,
        spelled,
        options,
        at,
    })
}

#[tactic(auto, unfolding(cq_grammar::specs::Reading::arguments))]
fn arguments(parser: &mut Parser<'_>) -> Result<Items<Argument>, Refusal>
    ensures { Reads (read.made node.or_none reading.arguments parser.old) result parser.new }
{
    if parser.sees(ARGUMENT_WORDS) {
        argument_list(parser)
    } else {
        Ok(Items::new(parser.alloc()))
    }
}

#[tactic(auto, unfolding(cq_grammar::specs::Reading::call))]
fn call(parser: &mut Parser<'_>) -> Result<Ast, Refusal>
    ensures { Reads (reading.call parser.old) result parser.new }
{
    let at = parser.the(Kind::Select)?;
    let function = parser.named(&[Kind::Call])?;
    parser.the(Kind::Open)?;
    let arguments = arguments(parser)?;
    parser.the(Kind::Close)?;
    Ok(Ast::Call {
        function,
        arguments,
        at,
    })
}

/// An expression that stands in no bracket.
#[tactic(auto, unfolding(crate::specs::Limit::limited))]
fn condition(parser: &mut Parser<'_>) -> Result<Expr, Refusal>
    ensures { Reads (descent.or_chain limited parser.old) result parser.new }
{
    expr(parser, MAX_DEPTH, Rule::Or)
}

#[tactic(auto, unfolding(cq_grammar::specs::Descent::filter))]
fn filter(parser: &mut Parser<'_>) -> Result<Option<Expr>, Refusal>
    ensures { Reads (descent.filter limited parser.old) result parser.new }
{
    if !parser.sees(&[Kind::Where]) {
        return Ok(None);
    }
    parser.the(Kind::Where)?;
    let condition = condition(parser)?;
    Ok(Some(condition))
}

/// What stands between the commas of a row of VALUES.
#[derive(Drop)]
struct ValuePhrase;

impl Phrase for ValuePhrase {
    type Tree = Expr;

    ghost reader = { λ _ _. limited 1 (grammar.expr Or) };

    ghost callable = { λ _. ⊤ };

    #[tactic(auto, unfolding(crate::specs::Limit::limited))]
    fn phrase(&self, parser: &mut Parser<'_>, _before: usize) -> Result<Expr, Refusal> {
        expr(parser, MAX_DEPTH - 1, Rule::Or)
    }
}

fn values(parser: &mut Parser<'_>) -> Result<Items<Expr>, Refusal>
    ensures { Reads (descent.list (λ _. limited 1 (grammar.expr Or)) parser.old) result parser.new }
{
    list_of(&ValuePhrase, parser)
}

/// What stands between the commas behind VALUES.
#[derive(Drop)]
struct RowPhrase;

impl Phrase for RowPhrase {
    type Tree = RowValues;

    ghost reader = { λ _ _. reading.row_values limited };

    ghost callable = { λ _. ⊤ };

    #[tactic(auto, unfolding(cq_grammar::specs::Reading::row_values))]
    fn phrase(&self, parser: &mut Parser<'_>, _before: usize) -> Result<RowValues, Refusal> {
        let at = parser.the(Kind::Open)?;
        let values = values(parser)?;
        parser.the(Kind::Close)?;
        Ok(RowValues { values, at })
    }
}

fn rows(parser: &mut Parser<'_>) -> Result<Items<RowValues>, Refusal>
    ensures { Reads (descent.list (λ _. reading.row_values limited) parser.old) result parser.new }
{
    list_of(&RowPhrase, parser)
}

#[tactic(auto, unfolding(cq_grammar::specs::Reading::insert))]
fn insert(parser: &mut Parser<'_>) -> Result<Ast, Refusal>
    ensures { Reads (reading.insert limited parser.old) result parser.new }
{
    let at = parser.the(Kind::Insert)?;
    parser.the(Kind::Into)?;
    let table = name(parser)?;
    let columns = optional_names(parser)?;
    parser.the(Kind::Values)?;
    let rows = rows(parser)?;
    Ok(Ast::Insert {
        table,
        columns,
        rows,
        at,
    })
}

/// What stands between the commas behind SET.
#[derive(Drop)]
struct SetPhrase;

impl Phrase for SetPhrase {
    type Tree = SetClause;

    ghost reader = { λ _ _. reading.set_clause limited };

    ghost callable = { λ _. ⊤ };

    #[tactic(auto, unfolding(cq_grammar::specs::Reading::set_clause))]
    fn phrase(&self, parser: &mut Parser<'_>, _before: usize) -> Result<SetClause, Refusal> {
        let column = name(parser)?;
        parser.the(Kind::Equal)?;
        let value = condition(parser)?;
        Ok(SetClause { column, value })
    }
}

fn sets(parser: &mut Parser<'_>) -> Result<Items<SetClause>, Refusal>
    ensures { Reads (descent.list (λ _. reading.set_clause limited) parser.old) result parser.new }
{
    list_of(&SetPhrase, parser)
}

#[tactic(auto, unfolding(cq_grammar::specs::Reading::update))]
fn update(parser: &mut Parser<'_>) -> Result<Ast, Refusal>
    ensures { Reads (reading.update limited parser.old) result parser.new }
{
    let at = parser.the(Kind::Update)?;
    let table = name(parser)?;
    parser.the(Kind::Set)?;
    let sets = sets(parser)?;
    let filter = filter(parser)?;
    Ok(Ast::Update {
        table,
        sets,
        filter,
        at,
    })
}

#[tactic(auto, unfolding(cq_grammar::specs::Reading::delete))]
fn delete(parser: &mut Parser<'_>) -> Result<Ast, Refusal>
    ensures { Reads (reading.delete limited parser.old) result parser.new }
{
    let at = parser.the(Kind::Delete)?;
    parser.the(Kind::From)?;
    let table = name(parser)?;
    let filter = filter(parser)?;
    Ok(Ast::Delete { table, filter, at })
}

/// A SELECT in brackets.
#[tactic(auto, unfolding(crate::specs::Limit::limited))]
fn inner(parser: &mut Parser<'_>) -> Result<Select, Refusal>
    ensures { Reads (limited 1 grammar.select parser.old) result parser.new }
{
    select(parser, MAX_DEPTH - 1)
}

/// What stands between the commas behind WITH.
#[derive(Drop)]
struct TablePhrase;

impl Phrase for TablePhrase {
    type Tree = CommonTable;

    ghost reader = { λ _ _. reading.common_table limited };

    ghost callable = { λ _. ⊤ };

    #[tactic(auto, unfolding(cq_grammar::specs::Reading::common_table))]
    fn phrase(&self, parser: &mut Parser<'_>, _before: usize) -> Result<CommonTable, Refusal> {
        let name = name(parser)?;
        parser.the(Kind::As)?;
        parser.the(Kind::Open)?;
        let select = inner(parser)?;
        parser.the(Kind::Close)?;
        Ok(CommonTable { name, select })
    }
}

fn tables(parser: &mut Parser<'_>) -> Result<Items<CommonTable>, Refusal>
    ensures { Reads (descent.list (λ _. reading.common_table limited) parser.old) result parser.new }
{
    list_of(&TablePhrase, parser)
}

#[tactic(auto, unfolding(cq_grammar::specs::Reading::common_tables))]
fn common_tables(parser: &mut Parser<'_>) -> Result<Items<CommonTable>, Refusal>
    ensures { Reads (reading.common_tables limited parser.old) result parser.new }
{
    if !parser.sees(&[Kind::With]) {
        return Ok(Items::new(parser.alloc()));
    }
    parser.the(Kind::With)?;
    tables(parser)
}

/// A SELECT in no bracket.
#[tactic(auto, unfolding(crate::specs::Limit::limited))]
fn outer(parser: &mut Parser<'_>) -> Result<Select, Refusal>
    ensures { Reads (descent.selected limited parser.old) result parser.new }
{
    select(parser, MAX_DEPTH)
}

#[tactic(auto, unfolding(cq_grammar::specs::Reading::query))]
fn query(parser: &mut Parser<'_>) -> Result<Query, Refusal>
    ensures { Reads (reading.query limited parser.old) result parser.new }
{
    let tables = common_tables(parser)?;
    let select = outer(parser)?;
    Ok(Query { tables, select })
}

#[tactic(auto, unfolding(cq_grammar::specs::Reading::explain))]
fn explain(parser: &mut Parser<'_>) -> Result<Ast, Refusal>
    ensures { Reads (reading.explain limited parser.old) result parser.new }
{
    let at = parser.the(Kind::Explain)?;
    let query = query(parser)?;
    Ok(Ast::Explain { query, at })
}

/// A statement, whose first tokens tell which.
#[tactic(auto, unfolding(cq_grammar::specs::Reading::statement))]
pub fn statement(parser: &mut Parser<'_>) -> Result<Ast, Refusal>
    ensures { Reads (reading.statement limited parser.old) result parser.new }
{
    if parser.sees(&[Kind::Create]) {
        create(parser)
    } else if parser.sees(&[Kind::Insert]) {
        insert(parser)
    } else if parser.sees(&[Kind::Update]) {
        update(parser)
    } else if parser.sees(&[Kind::Delete]) {
        delete(parser)
    } else if parser.sees(&[Kind::Copy]) {
        copy(parser)
    } else if parser.sees(&[Kind::Set]) {
        set(parser)
    } else if parser.sees(&[Kind::Explain]) {
        explain(parser)
    } else if parser.sees_three(&[Kind::Select], &[Kind::Call], &[Kind::Open]) {
        call(parser)
    } else {
        let query = query(parser)?;
        Ok(Ast::Query { query })
    }
}
