ghost use Rattle.std.specs.Prelude.{◌≡◌, ◌+◌, ◌++◌, false, IfOk, OnOk};
ghost use Rattle.cq_meaning.specs.Queries.{columns_in};
ghost use Rattle.cq_demands.specs.JoinDemands.{is_plain as is_plain_by_rule, leaves_from, on_demands, tie_of, ties as ties_by_rule, on_ties, all_ties};

use crate::wanted::{Wanted, put_demands};
use cq_tree::{Cond, Expr, FromTree, Op};
use cq_value::{Items, NoMemory, plus};
use std::alloc::Global;

/// A table of a FROM: its number, the number of its first column, how many columns it has, and whether it is on the right side of
/// a LEFT JOIN.
#[derive(Clone, Copy, Debug, PartialEq, Eq)]
pub struct Leaf {
    pub table: u32,
    pub start: u64,
    pub columns: u32,
    pub padded: bool,
}

pub type Leaves = Items<Leaf>;

/// Pairs of columns that have one value.
pub type Ties = Items<(u32, u32)>;

/// Whether a FROM is tables that joins join.
pub fn is_plain(from: &FromTree) -> bool
    ensures { result ≡ is_plain_by_rule from.now }
{
    match from {
        FromTree::Table(..) => true,
        FromTree::Cross(a, b) => is_plain(a.get()) && is_plain(b.get()),
        FromTree::Inner(a, b, _) => is_plain(a.get()) && is_plain(b.get()),
        FromTree::Left(a, b, _) => is_plain(a.get()) && is_plain(b.get()),
        FromTree::Sub(_) | FromTree::Result(..) => false,
    }
}

/// Puts the tables of a FROM whose first column has the number `start` last, and gives the number of the column behind it. At a
/// subquery it gives up.
fn put_leaves(
    leaves: &mut Leaves,
    from: &FromTree,
    start: u64,
    padded: bool,
) -> Result<u64, NoMemory>
    ensures leaves { OnOk result (leaves.new ≡ leaves.old ++ leaves_from from.now start padded) }
    ensures end { IfOk result (λ end. end ≡ start + columns_in from.now) }
{
    match from {
        FromTree::Table(table, columns) => {
            leaves.put(Leaf {
                table: *table,
                start,
                columns: *columns,
                padded,
            })?;
            plus(start, u64::from(*columns))
        }
        FromTree::Cross(a, b) => {
            let middle = put_leaves(leaves, a.get(), start, padded)?;
            put_leaves(leaves, b.get(), middle, padded)
        }
        FromTree::Inner(a, b, _) => {
            let middle = put_leaves(leaves, a.get(), start, padded)?;
            put_leaves(leaves, b.get(), middle, padded)
        }
        FromTree::Left(a, b, _) => {
            let middle = put_leaves(leaves, a.get(), start, padded)?;
            put_leaves(leaves, b.get(), middle, true)
        }
        FromTree::Sub(_) | FromTree::Result(..) => Err(NoMemory),
    }
}

/// The tables of a FROM.
///
/// Errors: it has a subquery, or want of memory.
pub fn leaves_of(alloc: Global, from: &FromTree) -> Result<Leaves, NoMemory>
    ensures { IfOk result (λ leaves. leaves ≡ leaves_from from.now 0 false) }
{
    let mut leaves = Leaves::new(alloc);
    put_leaves(&mut leaves, from, 0, false)?;
    Ok(leaves)
}

/// Puts what the ONs of the inner joins of a FROM demand behind the rest, but for those on the right side of a LEFT JOIN.
pub(crate) fn put_on_demands(
    alloc: Global,
    wanted: &mut Wanted,
    from: &FromTree,
) -> Result<(), NoMemory>
    ensures { OnOk result (wanted.new ≡ wanted.old ++ on_demands from.now) }
{
    match from {
        FromTree::Cross(a, b) => {
            put_on_demands(alloc, wanted, a.get())?;
            put_on_demands(alloc, wanted, b.get())
        }
        FromTree::Inner(a, b, on) => {
            put_on_demands(alloc, wanted, a.get())?;
            put_on_demands(alloc, wanted, b.get())?;
            put_demands(alloc, wanted, on)
        }
        FromTree::Left(a, _, _) => put_on_demands(alloc, wanted, a.get()),
        FromTree::Table(..) | FromTree::Sub(_) | FromTree::Result(..) => Ok(()),
    }
}

/// Puts the columns of `left = right` behind the rest, where both are columns.
fn put_tie(ties: &mut Ties, left: &Expr, right: &Expr) -> Result<(), NoMemory>
    ensures { OnOk result (ties.new ≡ ties.old ++ tie_of (Cond.Compare Op.Eq left.now right.now)) }
{
    let Expr::Column(i) = left else {
        return Ok(());
    };
    let Expr::Column(j) = right else {
        return Ok(());
    };
    ties.put((*i, *j))
}

/// Puts the equal columns of a condition behind the rest.
fn put_ties(ties: &mut Ties, condition: &Cond) -> Result<(), NoMemory>
    ensures { OnOk result (ties.new ≡ ties.old ++ ties_by_rule condition.now) }
{
    match condition {
        Cond::And(a, b) => {
            put_ties(ties, a.get())?;
            put_ties(ties, b.get())
        }
        Cond::Compare(Op::Eq, left, right) => put_tie(ties, left, right),
        Cond::Compare(..)
        | Cond::IsNull(_)
        | Cond::InResult(..)
        | Cond::Or(..)
        | Cond::Not(_)
        | Cond::Always => Ok(()),
    }
}

/// Puts those of the ONs of the inner joins of a FROM behind the rest, but for those on the right side of a LEFT JOIN.
fn put_on_ties(ties: &mut Ties, from: &FromTree) -> Result<(), NoMemory>
    ensures { OnOk result (ties.new ≡ ties.old ++ on_ties from.now) }
{
    match from {
        FromTree::Cross(a, b) => {
            put_on_ties(ties, a.get())?;
            put_on_ties(ties, b.get())
        }
        FromTree::Inner(a, b, on) => {
            put_on_ties(ties, a.get())?;
            put_on_ties(ties, b.get())?;
            put_ties(ties, on)
        }
        FromTree::Left(a, _, _) => put_on_ties(ties, a.get()),
        FromTree::Table(..) | FromTree::Sub(_) | FromTree::Result(..) => Ok(()),
    }
}

/// The columns that WHERE and the ONs of a FROM equate.
pub(crate) fn ties_of(alloc: Global, filter: &Cond, from: &FromTree) -> Result<Ties, NoMemory>
    ensures { IfOk result (λ ties. ties ≡ all_ties filter.now from.now) }
{
    let mut ties = Ties::new(alloc);
    put_ties(&mut ties, filter)?;
    put_on_ties(&mut ties, from)?;
    Ok(ties)
}
