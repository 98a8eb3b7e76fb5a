//! UPDATE and DELETE: what is set, and which rows are meant.

ghost use Rattle.std.specs.Prelude.{◌≡◌, ◌∷◌, ◌++◌, [], map, not, IfOk, ⊤};
ghost use Rattle.cq_tree.specs.declared.write.Set as declared;
ghost use Rattle.cq_tree.specs.declared.statement.Statement.TheVariants as statement;
ghost use Rattle.cq_tree.specs.declared.write.ShardOp.TheVariants.{Update, Remove};
ghost use Rattle.cq_reading.specs.declared.error.BindError.TheVariants as error;
ghost use Rattle.cq_reading.specs.Outcomes.{Binds, Judges};
ghost use Rattle.cq_reading.specs.Steps.{give, provided, through};
ghost use Rattle.cq_reading.specs.Widths.{expr_of};
ghost use Rattle.cq_reading.specs.Scopes as scopes;
ghost use Rattle.cq_reading.specs.Statements as reading;
ghost use Rattle.cq_reading.specs.Walk.{part_of};
ghost use Rattle.cq_bind.specs.Checks.{Checks};

use cq_bind_calls::{Step, through_of};
use cq_bind_looks::place;
use cq_bind_names::table_sources;
use cq_bind_operands::expr as tree_of;
use cq_bind_statements::{column_of, fits_column, is_key_column, kind_at, target_of};
use cq_bind_walk::{condition, expr};
use cq_catalog::{Catalog, TableInfo};
use cq_grammar::{Expr as Written, Name, SetClause};
use cq_reading::{BindError, Bound, Found, Scope, Source, World};
use cq_tree::{Cond, Expr, Set, Sets, ShardOp, Statement};
use cq_value::{Items, Kind, NoMemory, Positions};
use std::alloc::Global;

/// The columns that are set.
fn columns_of(alloc: Global, sets: &[Set]) -> Result<Positions, NoMemory>
    ensures { IfOk result (λ all. all ≡ map (λ (b : declared.Set). b.column) sets.now) }
{
    let mut all = Positions::new(alloc);
    for set in sets {
        all.put(set.column)?;
    }
    Ok(all)
}

/// The column of a SET, which isn't among those before.
fn named_column(
    alloc: Global,
    table: &TableInfo,
    before: &Sets,
    name: &Name,
) -> Result<u32, BindError>
    ensures { Judges (reading.column_of table.now.columns (map (λ (b : declared.Set). b.column) before.now) name.now) result }
{
    let set = columns_of(alloc, before.as_slice())?;
    column_of(alloc, table.columns.as_slice(), set.as_slice(), name)
}

fn check_key(table: &TableInfo, column: u32, at: u64) -> Result<(), BindError>
    ensures { Checks (not (reading.is_key_column table.now column)) (error.KeyColumn at) result }
{
    if is_key_column(table, column) {
        Err(BindError::KeyColumn { at })
    } else {
        Ok(())
    }
}

/// A value that a column of this type can take, but for its range.
fn fitting(kind: Kind, b: Bound, at: u64) -> Result<Expr, BindError>
    ensures { Judges (provided (reading.fits_column kind b) (error.Type at) (give (expr_of b))) result }
{
    if fits_column(kind, &b) {
        Ok(tree_of(b))
    } else {
        Err(BindError::Type { at })
    }
}

fn one_more(mut sets: Sets, column: u32, value: Expr) -> Result<Sets, NoMemory>
    ensures { IfOk result (λ all. all ≡ sets ++ (record { column = column; value = value }) ∷ []) }
{
    sets.put(Set { column, value })?;
    Ok(sets)
}

/// The column of a SET, which isn't among those before and is none of the primary key but the distribution column.
fn set_column(
    alloc: Global,
    table: &TableInfo,
    before: &Sets,
    name: &Name,
) -> Result<u32, BindError>
    ensures { Judges (reading.set_column table.now before.now name.now) result }
{
    let column = named_column(alloc, table, before, name)?;
    check_key(table, column, name.at)?;
    Ok(column)
}

/// The value of a SET for a column of this type.
fn set_value(
    found: &mut Found,
    scope: &Scope<'_>,
    kind: Kind,
    e: &Written,
) -> Result<Expr, BindError>
    ensures { Binds (reading.set_value scope.now kind e.now found.old) result found.new }
{
    let b = expr(found, e, scope)?;
    fitting(kind, b, place(e))
}

/// One more SET, behind those before it.
#[derive(Drop)]
struct EachSet<'a> {
    alloc: Global,
    table: &'a TableInfo,
    scope: &'a Scope<'a>,
}

impl<'a> Step for EachSet<'a> {
    type State = Sets;

    type Item = SetClause;

    ghost reading = { λ s. reading.with_set s.scope.now s.table.now };

    ghost callable = { λ _ _. ⊤ };

    fn step(&self, found: &mut Found, before: Sets, item: &SetClause) -> Result<Sets, BindError> {
        let column = set_column(self.alloc, self.table, &before, &item.column)?;
        let kind = kind_at(self.table, column);
        let value = set_value(found, self.scope, kind, &item.value)?;
        Ok(one_more(before, column, value)?)
    }
}

fn sets(
    alloc: Global,
    found: &mut Found,
    table: &TableInfo,
    scope: &Scope<'_>,
    clauses: &Items<SetClause>,
) -> Result<Sets, BindError>
    ensures { Binds (through (reading.with_set scope.now table.now) clauses.now [] found.old) result found.new }
{
    let step = EachSet {
        alloc,
        table,
        scope,
    };
    through_of(&step, found, clauses, Sets::new(alloc))
}

/// The condition of a WHERE, which is always true where there is none.
fn filter(found: &mut Found, scope: &Scope<'_>, filter: &Option<Written>) -> Result<Cond, BindError>
    ensures { Binds (reading.filter_in scope.now filter.now found.old) result found.new }
{
    match filter {
        Some(e) => condition(found, e, scope),
        None => Ok(Cond::Always),
    }
}

/// What an expression of a write stands in: these columns.
pub fn write_scope<'a>(world: &'a World<'a>, columns: &'a [Source]) -> Scope<'a>
    ensures { result ≡ reading.write_context world.now columns.now }
{
    Scope {
        world,
        first: 0,
        columns,
        grouped: false,
        keys: &[],
        joined: false,
        may_aggregate: false,
        may_select: false,
    }
}

/// An UPDATE of a table, whose number this is.
fn update_of(
    alloc: Global,
    found: &mut Found,
    world: &World<'_>,
    number: u32,
    table: &TableInfo,
    clauses: &Items<SetClause>,
    condition: &Option<Written>,
) -> Result<ShardOp, BindError>
    ensures { Binds (reading.update_of world.now number table.now clauses.now condition.now found.old) result found.new }
{
    let columns = table_sources(alloc, &table.name, table)?;
    let scope = write_scope(world, columns.as_slice());
    let sets = sets(alloc, found, table, &scope, clauses)?;
    let filter = filter(found, &scope, condition)?;
    Ok(ShardOp::Update {
        table: number,
        filter,
        sets,
    })
}

/// An UPDATE. `Err` is the first refusal: the table, then each SET, and then WHERE.
pub fn update(
    alloc: Global,
    found: &mut Found,
    catalog: &Catalog,
    table: &Name,
    clauses: &Items<SetClause>,
    condition: &Option<Written>,
) -> Result<Statement, BindError>
    ensures { Binds (reading.update catalog.now.tables table.now clauses.now condition.now found.old) result found.new }
{
    let (number, table) = target_of(alloc, catalog, table)?;
    let world = World {
        alloc,
        catalog,
        commons: &[],
    };
    let op = update_of(alloc, found, &world, number, table, clauses, condition)?;
    Ok(Statement::Write(op))
}

/// A DELETE from a table, whose number this is.
fn deletion_of(
    alloc: Global,
    found: &mut Found,
    world: &World<'_>,
    number: u32,
    table: &TableInfo,
    condition: &Option<Written>,
) -> Result<ShardOp, BindError>
    ensures { Binds (reading.deletion_of world.now number table.now condition.now found.old) result found.new }
{
    let columns = table_sources(alloc, &table.name, table)?;
    let scope = write_scope(world, columns.as_slice());
    let filter = filter(found, &scope, condition)?;
    Ok(ShardOp::Remove {
        table: number,
        filter,
    })
}

/// A DELETE. `Err` is the first refusal: the table, and then WHERE.
pub fn deletion(
    alloc: Global,
    found: &mut Found,
    catalog: &Catalog,
    table: &Name,
    condition: &Option<Written>,
) -> Result<Statement, BindError>
    ensures { Binds (reading.deletion catalog.now.tables table.now condition.now found.old) result found.new }
{
    let (number, table) = target_of(alloc, catalog, table)?;
    let world = World {
        alloc,
        catalog,
        commons: &[],
    };
    let op = deletion_of(alloc, found, &world, number, table, condition)?;
    Ok(Statement::Write(op))
}
