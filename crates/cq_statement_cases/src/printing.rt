//! Statements of each form are printed: `print` gives only a text that is read again as the statement.

use crate::tables::{bound, catalog};
use cq_catalog::Catalog;
use cq_reprint::print;
use std::alloc::Global;
use std::test::Fail;

const STATEMENTS: [&str; 31] = [
    "SELECT v - (1 - v) - -2 AS a, (v + 1) * 2, - (5), v / 2 % -4, coalesce(v, k, 1), NULL FROM t",
    "SELECT CASE WHEN v > 1 OR k IS NULL THEN s ELSE 'it''s' END FROM t WHERE v NOT IN (4, 5) AND NOT s = 'x'",
    "SELECT k FROM t WHERE v BETWEEN 1 AND 3 OR v NOT BETWEEN 4 AND 5 OR s IS NOT NULL OR v IN (1, 2)",
    "SELECT k FROM t WHERE v <> 1 AND v <= 2 AND v >= 3 AND v < 4 AND v > 5 AND NOT NOT v = 6 ORDER BY 'a', NULL, (1)",
    "SELECT b.*, t.k FROM t LEFT JOIN b ON t.k = b.k AND w > 1 JOIN r ON b.k = r.id, r AS x CROSS JOIN t AS y",
    "SELECT q.*, 1 AS one, q.* FROM (SELECT k AS x, v AS x, s FROM t) AS q, b AS z",
    "WITH e AS (SELECT k FROM t WHERE v IN (SELECT w FROM b)) SELECT k FROM e WHERE k IN (SELECT id FROM r)",
    "SELECT k FROM t WHERE CASE WHEN v IN (SELECT w FROM b) THEN 1 ELSE 2 END BETWEEN 1 AND 3",
    "SELECT v + 1 AS a, count(k) AS c FROM t GROUP BY v + 1 HAVING count(*) > 1 ORDER BY c DESC, a, min(k), sum(v) + max(v)",
    "SELECT * FROM (SELECT k AS x, v AS x FROM t) AS q GROUP BY 2, 1, 2 ORDER BY 2",
    "SELECT v * 2 AS a, v * 2 * 3 AS b, (1) AS c FROM t GROUP BY v * 2, v, (1)",
    "SELECT k FROM t WHERE (k = 1 AND k = 2) AND (k = 3 AND (k = 4 AND k = 5)) OR (v = 6 OR v = 7) OR v = 8",
    "SELECT k FROM t WHERE CASE WHEN NOT k IN (SELECT w FROM b) THEN 1 ELSE 2 END IN (1, 2, 3, 4, 5, 6, 7) OR v IN (3, 4) OR k = 1",
    "SELECT k FROM t WHERE CASE WHEN k IN (SELECT w FROM b) THEN 1 ELSE 2 END = v AND k IN (SELECT k FROM a WHERE v IN (SELECT w FROM b))",
    "SELECT -k, - -k, -(k + 1), -(-1), -(2), k - -1, k + -v, k / 2 * 3, k * (v / 2), k - (v - 1) - 3 FROM t",
    "SELECT k + 1, (k + 1) + 2, (k + 1) * 2, (k + 1) - (k + 1), -(k + 1) FROM t GROUP BY k + 1",
    "SELECT s FROM t GROUP BY s HAVING CASE WHEN count(*) IN (SELECT w FROM b) THEN 1 ELSE 2 END BETWEEN count(k) AND sum(v)",
    "WITH x AS (SELECT k, v FROM t WHERE k IN (SELECT w FROM b)), y AS (SELECT k FROM x) SELECT * FROM y, (SELECT * FROM x WHERE v IN (SELECT w FROM b)) AS z WHERE y.k IN (SELECT id FROM r)",
    "SELECT DISTINCT v, s FROM t ORDER BY s, v DESC LIMIT 3 OFFSET 2",
    "EXPLAIN WITH t AS (SELECT k AS j FROM t) SELECT j FROM t",
    "INSERT INTO b (w, k) VALUES (NULL, -9223372036854775807 - 1), (3, 2 * 3)",
    "UPDATE t SET v = v + 1, s = 'x' WHERE k = 1 AND v IS NOT NULL",
    "DELETE FROM t WHERE NOT (k = 1 OR v > 2)",
    "COPY t (s, k) FROM STDIN WITH (HEADER, FORMAT CSV)",
    "CREATE TABLE d (id bigint, n integer, s text, PRIMARY KEY (n, id))",
    "SET citus.enable_repartition_joins = ON",
    "SELECT create_distributed_table('it''s', 'B', shard_count => 0, colocate_with => 'none')",
    "SELECT create_reference_table('a')",
    "SELECT citus_move_shard_placement(102008, 1, 2)",
    "SELECT rebalance_table_shards(rebalance_strategy => 'by_disk_size')",
    "SELECT get_rebalance_table_shards_plan()",
];

/// Whether what a text is read as is printed.
fn is_printed(alloc: Global, catalog: &Catalog, text: &str) -> bool {
    let Some(statement) = bound(alloc, catalog, text) else {
        return false;
    };
    let printed = print(alloc, &statement, catalog).is_ok();
    drop(statement);
    printed
}

/// Each statement is printed.
fn print_all(alloc: Global, catalog: &Catalog) -> Result<(), Fail> {
    for text in STATEMENTS {
        if !is_printed(alloc, catalog, text) {
            return Err(Fail::from(text));
        }
    }
    Ok(())
}

#[test]
fn statements_are_printed(rt: HostRuntime) -> Result<(), Fail> {
    let catalog = catalog(rt.alloc())?;
    let printed = print_all(rt.alloc(), &catalog);
    drop(catalog);
    printed
}
