ghost use Rattle.std.specs.Prelude.{◌≡◌, Ok, IfOk};

use cq_tree::{Agg, Arm, Arms, Cond, Expr, Exprs, FromTree, Queries, Query, Set, ShardOp};
use cq_value::{Boxed, Items, NoMemory, both};
use std::alloc::Global;

/// A tree of which equal trees are made.
pub trait CopyTree: Drop {
    /// An equal tree.
    fn copy(&self, alloc: Global) -> Result<Self, NoMemory>
        ensures { IfOk result (λ x. x ≡ self.now) };
}

impl<T: CopyTree> CopyTree for Items<T> {
    fn copy(&self, alloc: Global) -> Result<Items<T>, NoMemory> {
        let mut copies = Items::new(alloc);
        for tree in self.as_slice() {
            copies.put(tree.copy(alloc)?)?;
        }
        Ok(copies)
    }
}

impl CopyTree for Expr {
    #[cycle(copies)]
    fn copy(&self, alloc: Global) -> Result<Expr, NoMemory> {
        match self {
            Expr::Literal(v) => Ok(Expr::Literal(v.copy(alloc)?)),
            Expr::Column(at) => Ok(Expr::Column(*at)),
            Expr::Neg(a) => Ok(Expr::Neg(boxed(alloc, a.get())?)),
            Expr::Add(a, b) => {
                let (x, y) = both(boxed(alloc, a.get()), boxed(alloc, b.get()))?;
                Ok(Expr::Add(x, y))
            }
            Expr::Sub(a, b) => {
                let (x, y) = both(boxed(alloc, a.get()), boxed(alloc, b.get()))?;
                Ok(Expr::Sub(x, y))
            }
            Expr::Mul(a, b) => {
                let (x, y) = both(boxed(alloc, a.get()), boxed(alloc, b.get()))?;
                Ok(Expr::Mul(x, y))
            }
            Expr::Div(a, c) => Ok(Expr::Div(boxed(alloc, a.get())?, *c)),
            Expr::Rem(a, c) => Ok(Expr::Rem(boxed(alloc, a.get())?, *c)),
            Expr::Case(arms, other) => {
                let (x, y) = both(copy_arms(alloc, arms.as_slice()), boxed(alloc, other.get()))?;
                Ok(Expr::Case(x, y))
            }
            Expr::Coalesce(es) => Ok(Expr::Coalesce(copy_exprs(alloc, es.as_slice())?)),
        }
    }
}

#[cycle(copies)]
fn boxed(alloc: Global, e: &Expr) -> Result<Boxed<Expr>, NoMemory>
    ensures { IfOk result (λ v. v ≡ e.now) }
{
    Boxed::new(alloc, e.copy(alloc)?)
}

#[cycle(copies)]
fn boxed_cond(alloc: Global, c: &Cond) -> Result<Boxed<Cond>, NoMemory>
    ensures { IfOk result (λ v. v ≡ c.now) }
{
    Boxed::new(alloc, c.copy(alloc)?)
}

#[cycle(copies)]
fn copy_exprs(alloc: Global, es: &[Expr]) -> Result<Exprs, NoMemory>
    ensures { IfOk result (λ v. v ≡ es.now) }
{
    let mut copies = Exprs::new(alloc);
    for e in es {
        copies.put(e.copy(alloc)?)?;
    }
    Ok(copies)
}

#[cycle(copies)]
fn copy_arms(alloc: Global, arms: &[Arm]) -> Result<Arms, NoMemory>
    ensures { IfOk result (λ v. v ≡ arms.now) }
{
    let mut copies = Arms::new(alloc);
    for arm in arms {
        let (when, then) = both(arm.when.copy(alloc), arm.then.copy(alloc))?;
        copies.put(Arm { when, then })?;
    }
    Ok(copies)
}

impl CopyTree for Cond {
    #[cycle(copies)]
    fn copy(&self, alloc: Global) -> Result<Cond, NoMemory> {
        match self {
            Cond::Compare(op, a, b) => {
                let (x, y) = both(a.copy(alloc), b.copy(alloc))?;
                Ok(Cond::Compare(*op, x, y))
            }
            Cond::IsNull(e) => Ok(Cond::IsNull(e.copy(alloc)?)),
            Cond::InResult(e, i) => Ok(Cond::InResult(e.copy(alloc)?, *i)),
            Cond::And(a, b) => {
                let (x, y) = both(boxed_cond(alloc, a.get()), boxed_cond(alloc, b.get()))?;
                Ok(Cond::And(x, y))
            }
            Cond::Or(a, b) => {
                let (x, y) = both(boxed_cond(alloc, a.get()), boxed_cond(alloc, b.get()))?;
                Ok(Cond::Or(x, y))
            }
            Cond::Not(a) => Ok(Cond::Not(boxed_cond(alloc, a.get())?)),
            Cond::Always => Ok(Cond::Always),
        }
    }
}

impl CopyTree for Agg {
    fn copy(&self, alloc: Global) -> Result<Agg, NoMemory> {
        match self {
            Agg::CountAll => Ok(Agg::CountAll),
            Agg::Count(e) => Ok(Agg::Count(e.copy(alloc)?)),
            Agg::Sum(e) => Ok(Agg::Sum(e.copy(alloc)?)),
            Agg::Min(e) => Ok(Agg::Min(e.copy(alloc)?)),
            Agg::Max(e) => Ok(Agg::Max(e.copy(alloc)?)),
        }
    }
}

impl CopyTree for Set {
    fn copy(&self, alloc: Global) -> Result<Set, NoMemory> {
        let value = self.value.copy(alloc)?;
        Ok(Set {
            column: self.column,
            value,
        })
    }
}

impl CopyTree for ShardOp {
    fn copy(&self, alloc: Global) -> Result<ShardOp, NoMemory> {
        match self {
            ShardOp::Insert { table, rows } => Ok(ShardOp::Insert {
                table: *table,
                rows: rows.copy(alloc)?,
            }),
            ShardOp::Update {
                table,
                filter,
                sets,
            } => {
                let (filter, sets) = both(filter.copy(alloc), sets.copy(alloc))?;
                Ok(ShardOp::Update {
                    table: *table,
                    filter,
                    sets,
                })
            }
            ShardOp::Remove { table, filter } => Ok(ShardOp::Remove {
                table: *table,
                filter: filter.copy(alloc)?,
            }),
        }
    }
}

#[cycle(query_copies)]
fn copy_queries(alloc: Global, queries: &[Query]) -> Result<Queries, NoMemory>
    ensures { IfOk result (λ v. v ≡ queries.now) }
{
    let mut copies = Queries::new(alloc);
    for q in queries {
        copies.put(q.copy(alloc)?)?;
    }
    Ok(copies)
}

#[cycle(query_copies)]
fn boxed_from(alloc: Global, f: &FromTree) -> Result<Boxed<FromTree>, NoMemory>
    ensures { IfOk result (λ v. v ≡ f.now) }
{
    Boxed::new(alloc, f.copy(alloc)?)
}

impl CopyTree for FromTree {
    #[cycle(query_copies)]
    fn copy(&self, alloc: Global) -> Result<FromTree, NoMemory> {
        match self {
            FromTree::Table(t, n) => Ok(FromTree::Table(*t, *n)),
            FromTree::Sub(q) => {
                let query = q.get().copy(alloc)?;
                Ok(FromTree::Sub(Boxed::new(alloc, query)?))
            }
            FromTree::Result(i, n) => Ok(FromTree::Result(*i, *n)),
            FromTree::Cross(a, b) => {
                let (x, y) = both(boxed_from(alloc, a.get()), boxed_from(alloc, b.get()))?;
                Ok(FromTree::Cross(x, y))
            }
            FromTree::Inner(a, b, on) => {
                let (x, y) = both(boxed_from(alloc, a.get()), boxed_from(alloc, b.get()))?;
                Ok(FromTree::Inner(x, y, on.copy(alloc)?))
            }
            FromTree::Left(a, b, on) => {
                let (x, y) = both(boxed_from(alloc, a.get()), boxed_from(alloc, b.get()))?;
                Ok(FromTree::Left(x, y, on.copy(alloc)?))
            }
        }
    }
}

impl CopyTree for Query {
    #[cycle(query_copies)]
    fn copy(&self, alloc: Global) -> Result<Query, NoMemory> {
        let (ctes, subs) = both(
            copy_queries(alloc, self.ctes.as_slice()),
            copy_queries(alloc, self.subs.as_slice()),
        )?;
        let from = self.from.copy(alloc)?;
        let (filter, having) = both(self.filter.copy(alloc), self.having.copy(alloc))?;
        let (keys, items) = both(self.keys.copy(alloc), self.items.copy(alloc))?;
        let (aggs, order) = both(self.aggs.copy(alloc), self.order.copy(alloc))?;
        let names = self.names.copy(alloc)?;
        Ok(Query {
            ctes,
            subs,
            from,
            filter,
            grouped: self.grouped,
            keys,
            aggs,
            having,
            items,
            shown: self.shown,
            distinct: self.distinct,
            order,
            limit: self.limit,
            offset: self.offset,
            names,
        })
    }
}
