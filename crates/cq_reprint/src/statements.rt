//! Whether two writes, or two statements, are one.

ghost use Rattle.std.specs.Prelude.{◌≡◌, ◌↔◌, IsTrue};

use crate::parts::Same;
use crate::queries::same_query;
use cq_tree::{ShardOp, Statement};

fn same_write(a: &ShardOp, b: &ShardOp) -> bool
    ensures { IsTrue result ↔ (a.now ≡ b.now) }
{
    match (a, b) {
        (ShardOp::Insert { table: i, rows: x }, ShardOp::Insert { table: j, rows: y }) => {
            *i == *j && x.same(y)
        }
        (
            ShardOp::Update {
                table: i,
                filter: c,
                sets: x,
            },
            ShardOp::Update {
                table: j,
                filter: d,
                sets: y,
            },
        ) => *i == *j && c.same(d) && x.same(y),
        (
            ShardOp::Remove {
                table: i,
                filter: c,
            },
            ShardOp::Remove {
                table: j,
                filter: d,
            },
        ) => *i == *j && c.same(d),
        _ => false,
    }
}

/// Whether two statements are one statement: the same kind with the same parts, names, places and numbers.
pub(crate) fn same_statement(a: &Statement, b: &Statement) -> bool
    ensures { IsTrue result ↔ (a.now ≡ b.now) }
{
    match (a, b) {
        (
            Statement::CreateTable {
                name: s,
                columns: x,
                key: k,
            },
            Statement::CreateTable {
                name: t,
                columns: y,
                key: l,
            },
        ) => s.same(t) && x.same(y) && k.same(l),
        (
            Statement::Distribute {
                table: s,
                column: u,
                count: m,
                with: x,
            },
            Statement::Distribute {
                table: t,
                column: v,
                count: n,
                with: y,
            },
        ) => s.same(t) && u.same(v) && *m == *n && x.same(y),
        (Statement::Reference { table: s }, Statement::Reference { table: t }) => s.same(t),
        (Statement::Setting { which: i, value: m }, Statement::Setting { which: j, value: n }) => *i
            == *j
            && *m == *n,
        (Statement::Select(p), Statement::Select(q))
        | (Statement::Explain(p), Statement::Explain(q)) => same_query(p.get(), q.get()),
        (Statement::Write(x), Statement::Write(y)) => same_write(x, y),
        (
            Statement::Copy {
                table: i,
                columns: x,
                csv: c,
                header: h,
            },
            Statement::Copy {
                table: j,
                columns: y,
                csv: d,
                header: g,
            },
        ) => *i == *j && x.same(y) && *c == *d && *h == *g,
        (
            Statement::Move {
                shard: i,
                from: x,
                to: u,
            },
            Statement::Move {
                shard: j,
                from: y,
                to: v,
            },
        ) => *i == *j && *x == *y && *u == *v,
        (Statement::Rebalance { by_size: c }, Statement::Rebalance { by_size: d })
        | (Statement::RebalancePlan { by_size: c }, Statement::RebalancePlan { by_size: d }) => {
            *c == *d
        }
        _ => false,
    }
}
