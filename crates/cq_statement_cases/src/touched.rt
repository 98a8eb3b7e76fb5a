//! Which shard groups statements touch, worked out by hand. Behind `=>` stand the groups of each occurrence of a table in a query (in CTEs,
//! in the FROM from left to right, in IN subqueries), or those of a write; behind each row, what it shows. The groups of t, a and b are 0 to
//! 3, that of r is 4, and those of c are 5 to 7. Of 4 shards 1, 6 and 9 are in the first, 3 and 8 in the second, 2 and 5 in the third, and -1
//! and 4 in the last; of 3 shards 1 is in the first, 3 in the second, 2 and 4 in the last. Of n, which has 8 and 9, 'a' is in the first.

use crate::tables::{bound, catalog};
use cq_catalog::Catalog;
use cq_plan::{Touched, groups_of_rows, groups_of_where, in_order, prune};
use cq_tree::{ShardOp, Statement};
use cq_value::{NoMemory, Positions};
use std::alloc::Global;
use std::fmt::Write;
use std::test::Fail;

const CASES: [&str; 78] = [
    "SELECT k FROM t WHERE NOT k = 1 AND k NOT IN (3) AND k > 0 AND k IS NOT NULL AND k BETWEEN 1 AND 1 => 0 1 2 3;", // no equality
    "SELECT k FROM t WHERE k + 0 = 1 AND k = 1 + 0 AND k = - -1 => 0 1 2 3;", // no bare column, no literal
    "SELECT k FROM t WHERE k = 1 AND v = 2 => 0;", // one value
    "SELECT v FROM c WHERE k = 2 => 7;", // the second column, of three shards
    "SELECT v FROM n WHERE k IN ('a', 'c') => 8 9;", // texts
    "SELECT k FROM t WHERE k = -1 => 3;", // a sign before a number
    "SELECT k FROM t WHERE 4 = k => 3;", // turned round
    "SELECT k FROM t WHERE k IN (1, 2, 3) => 0 1 2;", // IN
    "SELECT k FROM t WHERE k IN (3, 8, 3) => 1;", // values of one group
    "SELECT k FROM t WHERE k IN (1, v) => 0 1 2 3;", // not literals alone
    "SELECT k FROM t WHERE 1 IN (k) => 0;", // is 1 = k
    "SELECT k FROM t WHERE k IN (1, NULL) => 0;", // NULL is left out
    "SELECT k FROM t WHERE k = NULL => none;", // equal to nothing
    "SELECT k FROM t WHERE k IN (1, 2) AND k IN (2, 4) => 2;", // one value in common
    "SELECT k FROM t WHERE k = 1 OR k = 2 => 0 2;", // is k IN (1, 2)
    "SELECT k FROM t WHERE k = 1 OR k = 6 OR k = 9 OR k = 1 => 0;", // so is a chain of four
    "SELECT k FROM t WHERE k IN (1, 6) OR k = NULL => 0;", // and an IN with one more
    "SELECT k FROM t WHERE k = 1 OR (k = 2 OR k = 3) => 0 1 2 3;", // cut elsewhere: no IN
    "SELECT k FROM t WHERE 1 = k OR k = 2 => 0 1 2 3;", // one part turned round
    "SELECT name FROM r WHERE id = 1 AND id = 2 => 4;", // a reference table, whatever is said
    "SELECT k FROM t WHERE k = v AND v = 6 => 0;", // one class within a table
    "SELECT t.k FROM t, a WHERE t.k = 3 => 1; 0 1 2 3;", // no class
    "SELECT t.k FROM t JOIN a ON t.k = a.k AND a.k = 5 => 2; 2;", // a value in an ON
    "SELECT t.k FROM t JOIN a ON t.k = a.k OR t.v = a.k WHERE t.k = 1 => 0; 0 1 2 3;", // no conjunct
    "SELECT t.k FROM t JOIN a ON t.k = a.k WHERE t.k IN (1, 2) AND a.k IN (2, 3) => 2; 2;", // of one class in common
    "SELECT t.k FROM t JOIN a ON t.k = a.k WHERE t.k = 1 AND a.k = 2 => none; none;", // nothing in common
    "SELECT t.k FROM t JOIN c ON t.k = c.k WHERE t.k IN (2, 4) => 2 3; 7;", // shards of two counts
    "SELECT t.k FROM t JOIN a ON t.k = a.k JOIN c ON a.k = c.k WHERE c.k = 3 => 1; 1; 6;", // three tables
    "SELECT t.k FROM t JOIN a ON t.k = a.v JOIN b ON b.k = a.v WHERE b.k = 1 => 0; 0 1 2 3; 0;", // through another column
    "SELECT t.k FROM a, t JOIN r ON t.k = r.id WHERE r.id = 4 AND a.k = t.k => 3; 3; 4;", // through a reference table
    "SELECT t.k FROM t LEFT JOIN a ON a.k = t.k WHERE t.k = 2 => 2; 2;", // turned round
    "SELECT t.k FROM t LEFT JOIN a ON t.k = a.k WHERE a.k = 1 => 0 1 2 3; 0;", // the left side isn't
    "SELECT t.k FROM t LEFT JOIN a ON t.k = a.k AND t.k = 1 AND a.k = 1 => 0 1 2 3; 0 1 2 3;", // values in its ON don't count
    "SELECT t.k FROM t LEFT JOIN a ON t.k = a.v WHERE t.k = 1 => 0; 0 1 2 3;", // not the distribution column
    "SELECT t.k FROM t LEFT JOIN c ON t.v = c.k WHERE t.v = 3 => 0 1 2 3; 6;", // by any column of the left side
    "SELECT t.k FROM t LEFT JOIN a ON t.k = a.k AND t.v = a.k WHERE t.k IN (1, 2) AND t.v IN (2, 3) => 0 2; 2;", // by two
    "SELECT t.k FROM t LEFT JOIN a ON t.k = a.k LEFT JOIN c ON a.k = c.k WHERE t.k = 1 => 0; 0; 5;", // a chain
    "SELECT t.k FROM t LEFT JOIN a ON t.k = a.v LEFT JOIN c ON a.v = c.k WHERE t.k = 1 => 0; 0 1 2 3; 5 6 7;", // a broken one
    "SELECT t.k FROM t LEFT JOIN r ON t.k = r.id LEFT JOIN a ON r.id = a.k WHERE t.k = 1 => 0; 4; 0 1 2 3;", // broken by a reference table
    "SELECT t.k FROM t LEFT JOIN a ON t.k = a.k LEFT JOIN c ON a.k = c.k WHERE a.k = 3 => 0 1 2 3; 1; 6;", // from the middle
    "SELECT t.k FROM t LEFT JOIN a ON t.k = a.k JOIN b ON a.k = b.k WHERE t.k = 1 => 0; 0; 0 1 2 3;", // the column, not its class
    "SELECT t.k FROM t, a LEFT JOIN b ON a.k = b.k WHERE t.k = 1 => 0; 0 1 2 3; 0 1 2 3;", // the left side is a alone
    "SELECT k FROM (SELECT v, k FROM t) s WHERE k = 1 => 0;", // a subquery is narrowed
    "SELECT k FROM (SELECT k, v FROM t) s WHERE v = 1 => 0 1 2 3;", // another output
    "SELECT x FROM (SELECT k + 0 AS x FROM t) s WHERE x = 1 => 0 1 2 3;", // no bare column
    "SELECT x FROM (SELECT k AS x, k AS y FROM t) s WHERE y = 1 => 0 1 2 3;", // the first such output counts
    "SELECT t.k FROM (SELECT k FROM a WHERE k = 1) s JOIN t ON s.k = t.k => 0; 0 1 2 3;", // not from inside
    "SELECT k FROM (SELECT k FROM (SELECT v, k FROM t) x) y WHERE k = 1 => 0;", // two deep
    "SELECT k FROM (SELECT k FROM t WHERE k = 3 ORDER BY k LIMIT 2) s WHERE k = 1 => 1;", // LIMIT
    "SELECT k FROM (SELECT k FROM t ORDER BY k OFFSET 1) s WHERE k = 1 => 0 1 2 3;", // OFFSET
    "SELECT k FROM (SELECT k FROM t OFFSET 0) s WHERE k = 1 => 0;", // no OFFSET
    "SELECT k FROM (SELECT v, k, count(*) AS m FROM t GROUP BY v, k) s WHERE k = 2 => 2;", // GROUP BY
    "SELECT k FROM (SELECT v AS k, count(*) AS m FROM t GROUP BY v) s WHERE k = 2 => 0 1 2 3;", // by another column
    "SELECT m FROM (SELECT max(k) AS m FROM t GROUP BY k) s WHERE m = 2 => 0 1 2 3;", // the key isn't shown
    "SELECT k FROM (SELECT DISTINCT v, k FROM t) s WHERE k = 2 => 2;", // DISTINCT
    "SELECT k FROM (SELECT a.k FROM t JOIN a ON t.k = a.k JOIN r ON t.v = r.id) s WHERE k = 3 => 1; 1; 4;", // a join
    "SELECT k FROM (SELECT t.k FROM t, a) s WHERE k = 3 => 0 1 2 3; 0 1 2 3;", // two components
    "SELECT k FROM (SELECT t.k FROM t JOIN c ON t.k = c.k) s WHERE k = 3 => 0 1 2 3; 5 6 7;", // of two groups of tables
    "SELECT k FROM (SELECT t.k FROM t LEFT JOIN a ON t.k = a.k) s WHERE k = 1 => 0; 0;", // a co-located LEFT JOIN
    "SELECT k FROM (SELECT t.k FROM t LEFT JOIN a ON t.v = a.k) s WHERE k = 1 => 0 1 2 3; 0 1 2 3;", // one that isn't
    "SELECT k FROM (SELECT t.k FROM r LEFT JOIN t ON r.id = t.k) s WHERE k = 1 => 4; 0 1 2 3;", // no distributed left side
    "SELECT t.k FROM t LEFT JOIN (SELECT v, k FROM a) s ON t.k = s.k WHERE t.k = 2 => 2; 2;", // on the right
    "SELECT t.k FROM t LEFT JOIN (SELECT k FROM a) s ON t.k = s.k LEFT JOIN c ON s.k = c.k WHERE t.k = 1 => 0; 0; 5;", // a chain through a subquery
    "SELECT t.k FROM t LEFT JOIN (SELECT k FROM a ORDER BY k LIMIT 1) s ON t.k = s.k LEFT JOIN c ON s.k = c.k WHERE t.k = 1 => 0; 0 1 2 3; 5 6 7;", // broken by LIMIT
    "WITH e AS (SELECT k FROM t WHERE k = 1) SELECT a.k FROM e JOIN a ON e.k = a.k WHERE e.k = 3 => 0; 1;", // a CTE isn't narrowed
    "WITH t AS (SELECT k FROM t WHERE k = 3) SELECT k FROM t WHERE k = 1 => 1;", // a CTE hides a table, not from itself
    "SELECT k FROM t WHERE k IN (SELECT k FROM a WHERE k = 1) => 0 1 2 3; 0;", // an IN subquery
    "SELECT k FROM t WHERE k = 1 AND v IN (SELECT v FROM a WHERE k = 2 AND v IN (SELECT w FROM b WHERE k = 3)) => 0; 2; 1;", // one in another
    "SELECT k FROM (SELECT k FROM t WHERE v IN (SELECT v FROM a WHERE k = 4)) s, r WHERE k = 1 => 0; 4; 3;", // in a subquery
    "SELECT k FROM t WHERE k = 1 GROUP BY k HAVING k NOT IN (SELECT k FROM a WHERE k = 2) => 0; 2;", // in HAVING
    "WITH e AS (SELECT k FROM t WHERE v IN (SELECT v FROM a WHERE k = 2) AND k = 1) SELECT b.k FROM b, e WHERE b.k = 3 => 0; 2; 1;", // in a CTE
    "UPDATE t SET v = 1 WHERE k = v AND v IN (3, 8) => 1;", // a class
    "UPDATE t SET v = 1 WHERE k = 1 AND k = 2 => none;", // nothing in common
    "DELETE FROM t WHERE k = 1 OR v = 2 => 0 1 2 3;", // no IN
    "DELETE FROM r WHERE id = NULL => 4;", // a reference table
    "INSERT INTO t VALUES (2, 0, 'a'), (1, 0, 'b'), (1 + 4, 1, 'c') => 0 2;", // three rows
    "INSERT INTO c VALUES (1, 3), (1, 2) => 6 7;", // the second column
    "INSERT INTO r VALUES (1, 'a'), (2, 'b') => 4;", // a reference table
];

/// The groups that a write touches.
fn written(alloc: Global, catalog: &Catalog, op: &ShardOp) -> Result<Positions, NoMemory> {
    match op {
        ShardOp::Insert { table, rows } => {
            let groups = groups_of_rows(alloc, catalog, *table, rows.as_slice())?;
            in_order(alloc, catalog, groups.as_slice())
        }
        ShardOp::Update { table, filter, .. } | ShardOp::Remove { table, filter } => {
            groups_of_where(alloc, catalog, *table, filter)
        }
    }
}

/// The groups of each occurrence of a table in a query, or those of a write.
fn touched(alloc: Global, catalog: &Catalog, statement: &Statement) -> Option<Touched> {
    match statement {
        Statement::Select(q) => prune(alloc, catalog, q.get()).ok(),
        Statement::Write(op) => {
            let mut groups = Touched::new(alloc);
            groups.put(written(alloc, catalog, op).ok()?).ok()?;
            Some(groups)
        }
        _ => None,
    }
}

fn shown(alloc: Global, touched: &Touched) -> Result<String, Fail> {
    let mut shown = String::new(alloc);
    for groups in touched.as_slice() {
        for group in groups.as_slice() {
            write!(shown, " {group}")?;
        }
        shown.push_str(if groups.len() == 0 { " none;" } else { ";" })?;
    }
    Ok(shown)
}

/// What a statement's text touches, as a case shows it.
fn touched_by(alloc: Global, catalog: &Catalog, text: &str) -> Result<String, Fail> {
    let statement = bound(alloc, catalog, text).ok_or("no statement")?;
    let groups = touched(alloc, catalog, &statement);
    drop(statement);
    shown(alloc, &groups.ok_or("no query and no write")?)
}

/// Each case shows what its statement touches.
fn pass_all(alloc: Global, catalog: &Catalog) -> Result<(), Fail> {
    for case in CASES {
        let (text, wanted) = case.split_once(" =>").ok_or(case)?;
        let said = touched_by(alloc, catalog, text)?;
        if said.as_str() != wanted {
            return Err(Fail::from(case));
        }
    }
    Ok(())
}

#[test]
fn touched_groups(rt: HostRuntime) -> Result<(), Fail> {
    let catalog = catalog(rt.alloc())?;
    let passed = pass_all(rt.alloc(), &catalog);
    drop(catalog);
    passed
}
