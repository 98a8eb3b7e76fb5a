ghost use Rattle.std.specs.Prelude.{◌≡◌, ◌||◌, IfOk, OnOk};
ghost use Rattle.std.specs.List.{list_all};
ghost use Rattle.std.specs.HashSet.{contains};
ghost use Rattle.cq_meaning.specs.Values.{column};
ghost use Rattle.cq_meaning.specs.Logic.{among};
ghost use Rattle.cq_queries.specs.declared.operand.Operand.{Operand as TheOperand};
ghost use Rattle.cq_queries.specs.Operands.{owned, same_operand};
ghost use Rattle.cq_queries.specs.Members.{first_column, among_values, verdict as verdict_by_rule, are_found, are_unsure as are_unsure_by_rule, is_number as is_number_by_rule, is_text as is_text_by_rule, AreMembers};

use crate::expression::cell;
use crate::logic;
use crate::operand::{self, Operand};
use cq_tree::Op;
use cq_value::{Items, NoMemory, Results, Row, Rows, Truth};
use std::alloc::Global;
use std::collections::HashSet;
use std::hash::RandomState;
use std::marker::Model;

/// So few rows are looked through.
const FEW: u64 = 8;

fn is_number(v: Operand<'_>) -> bool
    ensures { result ≡ is_number_by_rule (owned v.entry) }
{
    matches!(v, Operand::Int(_))
}

fn is_text(v: Operand<'_>) -> bool
    ensures { result ≡ is_text_by_rule (owned v.entry) }
{
    matches!(v, Operand::Text(_))
}

/// Whether the values of the first column are numbers.
fn are_numbers(rows: &[Row]) -> bool
    ensures { result ≡ list_all (λ row. is_number_by_rule (column row 0)) rows.now }
{
    rows.iter().all(|row| is_number(cell(row, 0)))
}

/// Whether the values of the first column are texts.
fn are_texts(rows: &[Row]) -> bool
    ensures { result ≡ list_all (λ row. is_text_by_rule (column row 0)) rows.now }
{
    rows.iter().all(|row| is_text(cell(row, 0)))
}

fn put_value<'a>(
    values: &mut HashSet<Operand<'a>, RandomState>,
    v: Operand<'a>,
) -> Result<(), NoMemory>
    ensures { OnOk result ((q : TheOperand) → contains same_operand values.new q ≡ (same_operand v.entry q || contains same_operand values.old q)) }
{
    match values.insert(v) {
        Ok(_) => Ok(()),
        Err(_) => Err(NoMemory),
    }
}

/// The values of the first column, each once.
fn first_values<'a>(
    alloc: Global,
    hash: RandomState,
    rows: &'a Rows,
) -> Result<HashSet<Operand<'a>, RandomState>, NoMemory>
    ensures { IfOk result (AreMembers (first_column rows.now)) }
{
    let mut values = HashSet::with_hasher(alloc, hash);
    for row in rows.as_slice() {
        put_value(&mut values, cell(row, 0))?;
    }
    Ok(values)
}

/// Rows, with the values of their first column in a set that lends their texts. Contracts see those values.
#[derive(Drop)]
struct Members<'a> {
    rows: &'a Rows,
    values: HashSet<Operand<'a>, RandomState>,
    are_numbers: bool,
    are_texts: bool,
}

impl<'a> Model for Members<'a> {
    ghost use Rattle.std.specs.Prelude.{List, ◌≡◌};
    ghost use Rattle.std.specs.Coded.{codes};
    ghost use Rattle.std.specs.List.{list_all};
    ghost use Rattle.cq_value.specs.declared.value.Value.{Value as TheValue};
    ghost use Rattle.cq_value.specs.contracts.value.Value as value;
    ghost use Rattle.cq_queries.specs.Members.{first_column, is_number, is_text, AreMembers};

    ghost Value = { List TheValue };

    ghost coded = { Prim.hlevel (codes, value.the_row.coded) };

    ghost view = { λ m. first_column m.rows.now };

    ghost invariant = { λ m. AreMembers (first_column m.rows.now) m.values × (m.are_numbers ≡ list_all is_number (first_column m.rows.now)) × (m.are_texts ≡ list_all is_text (first_column m.rows.now)) };
}

/// What `IN` comes to, where a value was found or not, and where one is unsure.
fn verdict(is_found: bool, is_unsure: bool) -> Truth
    ensures { result ≡ verdict_by_rule is_found is_unsure }
{
    match (is_found, is_unsure) {
        (true, _) => Truth::Yes,
        (false, true) => Truth::Unknown,
        (false, false) => Truth::No,
    }
}

impl<'a> Members<'a> {
    fn new(alloc: Global, hash: RandomState, rows: &'a Rows) -> Result<Members<'a>, NoMemory>
        ensures { IfOk result (λ m. m ≡ first_column rows.now) }
    {
        Ok(Members {
            rows,
            values: first_values(alloc, hash, rows)?,
            are_numbers: are_numbers(rows.as_slice()),
            are_texts: are_texts(rows.as_slice()),
        })
    }

    /// Whether `v = w` of one of the values.
    fn has(&self, v: Operand<'_>) -> bool
        ensures { result ≡ are_found (owned v.entry) self.now }
    {
        match v {
            Operand::Null => false,
            _ => self.values.contains(&v),
        }
    }

    /// Whether `v = w` is unknown of one of the values.
    fn are_unsure(&self, v: Operand<'_>) -> bool
        ensures { result ≡ are_unsure_by_rule (owned v.entry) self.now }
    {
        match v {
            Operand::Null => self.rows.len() > 0,
            Operand::Int(_) => !self.are_numbers,
            Operand::Text(_) => !self.are_texts,
        }
    }

    /// `IN`, over the values.
    fn find(&self, v: Operand<'_>) -> Truth
        ensures { result ≡ among_values (owned v.entry) self.now }
    {
        verdict(self.has(v), self.are_unsure(v))
    }
}

/// The rows of a result. Where they are many, `IN` finds a value among them without looking at each. Contracts see the rows.
#[derive(Drop)]
pub struct Listed<'a> {
    rows: &'a Rows,
    members: Option<Members<'a>>,
}

impl<'a> Model for Listed<'a> {
    ghost use Rattle.std.specs.Prelude.{List, ◌≡◌, IfSome};
    ghost use Rattle.std.specs.Coded.{codes};
    ghost use Rattle.cq_value.specs.contracts.value.Value as value;
    ghost use Rattle.cq_meaning.specs.Values.{Row as TheRow};
    ghost use Rattle.cq_queries.specs.Members.{first_column};

    ghost Value = { List TheRow };

    ghost view = { λ l. l.rows.now };

    ghost coded = { Prim.hlevel (codes, value.the_row.coded) };

    ghost invariant = { λ l. IfSome l.members (λ m. m ≡ first_column l.rows.now) };
}

/// Results, as expressions look at them.
pub type Lookups<'a> = Items<Listed<'a>>;

/// Whether these are many rows of one column.
fn are_many(rows: &Rows) -> bool {
    match rows.get(0) {
        Some(first) => first.len() == 1 && rows.len() > FEW,
        None => false,
    }
}

/// `IN`, over rows of one column, each of which is looked at.
fn is_among(v: Operand<'_>, rows: &Rows) -> Truth
    ensures { result ≡ among (owned v.entry) rows.now }
{
    let mut found = Truth::No;
    for row in rows.as_slice() {
        let order = operand::compare(v, cell(row, 0));
        found = logic::either(found, logic::holds(Op::Eq, order));
    }
    found
}

impl<'a> Listed<'a> {
    fn new(alloc: Global, hash: RandomState, rows: &'a Rows) -> Result<Listed<'a>, NoMemory>
        ensures { IfOk result (λ listed. listed ≡ rows.now) }
    {
        let members = if are_many(rows) {
            Some(Members::new(alloc, hash, rows)?)
        } else {
            None
        };
        Ok(Listed { rows, members })
    }

    /// The rows.
    pub fn rows(&self) -> &'a Rows
        ensures { result.now ≡ self.now }
    {
        self.rows
    }

    /// `IN`, over the rows, of which each has one column.
    pub fn find(&self, v: Operand<'_>) -> Truth
        ensures { result ≡ among (owned v.entry) self.now }
    {
        match &self.members {
            Some(members) => members.find(v),
            None => is_among(v, self.rows),
        }
    }
}

/// Results, with the values of those that have many rows of one column in a set.
///
/// Errors: want of memory.
pub fn lookups_of<'a>(
    alloc: Global,
    hash: RandomState,
    results: &'a Results,
) -> Result<Lookups<'a>, NoMemory>
    ensures { IfOk result (λ lookups. lookups ≡ results.now) }
{
    let mut lookups = Lookups::new(alloc);
    for rows in results.as_slice() {
        lookups.put(Listed::new(alloc, hash, rows)?)?;
    }
    Ok(lookups)
}
