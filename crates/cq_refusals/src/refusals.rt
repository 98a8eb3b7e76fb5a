ghost use Rattle.std.specs.Prelude.{◌≡◌, IfOk};
ghost use Rattle.std.specs.List.{list_any};
ghost use Rattle.cq_planning.specs.Refusals.{refusal_of as refusal_by_rule, refusal_of_write as refusal_of_write_by_rule, refusal_of_query as refusal_of_query_by_rule};
ghost use Rattle.cq_refusals.specs.Flaws.{lowest as lowest_by_rule};

use crate::blocks::put_block;
use crate::cuts::has_loose_cut;
use crate::flaws::Flaws;
use cq_catalog::Catalog;
use cq_plan::{changes_distribution, row_without_value, table_alone};
use cq_tree::{Query, ShardOp, Statement, Unsupported};
use cq_value::{Items, NoMemory};
use std::alloc::Global;

fn refusal_of_write(catalog: &Catalog, op: &ShardOp) -> Option<Unsupported>
    ensures { result ≡ refusal_of_write_by_rule catalog.now op.now }
{
    match op {
        ShardOp::Insert { table, rows } => {
            match row_without_value(catalog, *table, rows.as_slice()) {
                Some(row) => Some(Unsupported::NoDistributionValue { row }),
                None => None,
            }
        }
        ShardOp::Update { table, sets, .. } => {
            if changes_distribution(catalog, *table, sets.as_slice()) {
                Some(Unsupported::DistributionColumn)
            } else {
                None
            }
        }
        ShardOp::Remove { .. } => None,
    }
}

fn one_needs_repartition(flaws: &[Flaws]) -> bool
    ensures { result ≡ list_any (λ f. f.needs_repartition) flaws.now }
{
    flaws.iter().any(|f| f.needs_repartition)
}

fn one_lacks_equality(flaws: &[Flaws]) -> bool
    ensures { result ≡ list_any (λ f. f.lacks_equality) flaws.now }
{
    flaws.iter().any(|f| f.lacks_equality)
}

fn one_has_loose_join(flaws: &[Flaws]) -> bool
    ensures { result ≡ list_any (λ f. f.has_loose_join) flaws.now }
{
    flaws.iter().any(|f| f.has_loose_join)
}

/// The lowest refusal of blocks with these flaws, where a subquery may be cut without a full order.
fn lowest(flaws: &[Flaws], is_cut: bool) -> Option<Unsupported>
    ensures { result ≡ lowest_by_rule flaws.now is_cut }
{
    if one_needs_repartition(flaws) {
        Some(Unsupported::NeedsRepartition)
    } else if one_lacks_equality(flaws) {
        Some(Unsupported::NoEquality)
    } else if one_has_loose_join(flaws) {
        Some(Unsupported::OuterJoin)
    } else if is_cut {
        Some(Unsupported::LimitWithoutOrder)
    } else {
        None
    }
}

/// The refusal of a query by the flaws of its blocks.
#[tactic(auto, using(crate::proofs::LowestLaws::lowest_is))]
fn refusal_of_blocks(
    alloc: Global,
    q: &Query,
    catalog: &Catalog,
    repartition: bool,
) -> Result<Option<Unsupported>, NoMemory>
    ensures { IfOk result (λ r. r ≡ refusal_of_query_by_rule repartition catalog.now q.now) }
{
    let mut flaws = Items::new(alloc);
    put_block(alloc, catalog, q, repartition, &mut flaws)?;
    Ok(lowest(flaws.as_slice(), has_loose_cut(q)))
}

/// The refusal of a query: none of one that reads a table alone.
#[tactic(auto, using(crate::proofs::AloneLaws::alone_has_none))]
fn refusal_of_query(
    alloc: Global,
    q: &Query,
    catalog: &Catalog,
    repartition: bool,
) -> Result<Option<Unsupported>, NoMemory>
    ensures { IfOk result (λ r. r ≡ refusal_of_query_by_rule repartition catalog.now q.now) }
{
    match table_alone(q) {
        Some(_) => Ok(None),
        None => refusal_of_blocks(alloc, q, catalog, repartition),
    }
}

/// Why planning doesn't support a statement (Citus, "SQL Support and Workarounds"), where `repartition` says whether
/// `citus.enable_repartition_joins` is on. A write: an UPDATE sets the distribution column of its table, or a row of an INSERT, the first of which
/// is named from 1, has NULL or no value in it. A query, or EXPLAIN of it, by the lowest that holds of any of its blocks: distributed tables are
/// joined on other columns and repartition is off; no equality joins them; a LEFT JOIN of them isn't co-located; a subquery or a CTE is cut
/// without an ORDER BY over all its outputs. None of all others.
///
/// Errors: want of memory.
pub fn refusal_of(
    alloc: Global,
    s: &Statement,
    catalog: &Catalog,
    repartition: bool,
) -> Result<Option<Unsupported>, NoMemory>
    ensures { IfOk result (λ r. r ≡ refusal_by_rule repartition catalog.now s.now) }
{
    match s {
        Statement::Select(q) => refusal_of_query(alloc, q.get(), catalog, repartition),
        Statement::Explain(q) => refusal_of_query(alloc, q.get(), catalog, repartition),
        Statement::Write(op) => Ok(refusal_of_write(catalog, op)),
        _ => Ok(None),
    }
}
