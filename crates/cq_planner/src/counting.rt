ghost use Rattle.std.specs.Prelude.{◌≡◌, IfOk};
ghost use Rattle.cq_planner.specs.Counting.{both, counts_in, counts_of, counts_among};

use cq_relations::plus;
use cq_tree::{FromTree, Query};
use cq_value::NoMemory;

/// How many IN subqueries and relations stand in a part of a query, at any depth; or the numbers of the results that the next ones become.
#[derive(Clone, Copy, Debug)]
pub struct Numbers {
    pub ins: u64,
    pub relations: u64,
}

pub fn sum(a: Numbers, b: Numbers) -> Result<Numbers, NoMemory>
    ensures { IfOk result (λ n. n ≡ both a b) }
{
    Ok(Numbers {
        ins: plus(a.ins, b.ins)?,
        relations: plus(a.relations, b.relations)?,
    })
}

fn one_relation() -> Numbers
    ensures { result ≡ record { ins = 0; relations = 1 } }
{
    Numbers {
        ins: 0,
        relations: 1,
    }
}

/// What stands in a FROM.
#[cycle(counting)]
pub fn count_from(from: &FromTree) -> Result<Numbers, NoMemory>
    ensures { IfOk result (λ n. n ≡ counts_in from.now) }
{
    match from {
        FromTree::Table(..) | FromTree::Result(..) => Ok(one_relation()),
        FromTree::Sub(q) => sum(one_relation(), count_query(q.get())?),
        FromTree::Cross(a, b) => sum(count_from(a.get())?, count_from(b.get())?),
        FromTree::Inner(a, b, _) => sum(count_from(a.get())?, count_from(b.get())?),
        FromTree::Left(a, b, _) => sum(count_from(a.get())?, count_from(b.get())?),
    }
}

/// What stands in a query: the IN subqueries in its CTEs aren't counted.
#[cycle(counting)]
pub fn count_query(q: &Query) -> Result<Numbers, NoMemory>
    ensures { IfOk result (λ n. n ≡ counts_of q.now) }
{
    let ctes = count_each(q.ctes.as_slice())?;
    let from = count_from(&q.from)?;
    let subs = count_each(q.subs.as_slice())?;
    Ok(Numbers {
        ins: plus(from.ins, plus(q.subs.len(), subs.ins)?)?,
        relations: plus(ctes.relations, plus(from.relations, subs.relations)?)?,
    })
}

/// What stands in queries.
#[cycle(counting)]
pub fn count_each(queries: &[Query]) -> Result<Numbers, NoMemory>
    ensures { IfOk result (λ n. n ≡ counts_among queries.now) }
{
    let mut all = Numbers {
        ins: 0,
        relations: 0,
    };
    for q in queries {
        all = sum(all, count_query(q)?)?;
    }
    Ok(all)
}
