ghost use Rattle.std.specs.Prelude.{◌≡◌, ◌+◌, ◌++◌, IfOk, OnOk};
ghost use Rattle.cq_meaning.specs.Results.{ins_in, ins_in_from};
ghost use Rattle.cq_meaning_laws.specs.WholeRules.{steps_in, steps_in_from, steps_of as steps_by_rule, no_results};
ghost use Rattle.cq_whole.specs.StepLists.{ins_in_list, steps_in_list, ins_in_cte_list, steps_in_cte_list};

use crate::numbers::Numbers;
use cq_tree::{FromTree, Query};
use cq_value::{Items, NoMemory, Results};
use std::alloc::Global;
use std::marker::Model;

/// A CTE or an IN subquery, with the number of its result.
#[derive(Drop)]
pub struct Step<'a> {
    number: u64,
    query: &'a Query,
}

impl<'a> Model for Step<'a> {
    ghost use Rattle.std.specs.Coded.{codes};
    ghost use Rattle.cq_tree.specs.contracts.query.Query as tree;
    ghost use Rattle.cq_meaning_laws.specs.WholeRules as whole;

    ghost Value = { whole.Step };

    ghost view = { λ s. record { number = s.number; query = s.query.now } };

    ghost coded = { Prim.hlevel (codes, tree.the_row.coded) };
}

impl<'a> Step<'a> {
    /// The step of a query whose result has this number.
    fn new(number: u64, query: &'a Query) -> Step<'a>
        ensures { result ≡ record { number = number; query = query.now } }
    {
        Step { number, query }
    }

    /// The number of its result.
    pub fn number(&self) -> u64
        ensures { result ≡ self.now.number }
    {
        self.number
    }

    /// Its query.
    pub fn query(&self) -> &'a Query
        ensures { result.now ≡ self.now.query }
    {
        self.query
    }
}

/// Steps in the order in which they are computed.
pub type Steps<'a> = Items<Step<'a>>;

/// Puts the steps of the IN subqueries in a query last.
#[cycle(steps)]
fn put_ins<'a>(
    query: &'a Query,
    steps: &mut Steps<'a>,
    numbers: &mut Numbers,
) -> Result<(), NoMemory>
    ensures steps { OnOk result (steps.new ≡ steps.old ++ steps_in numbers.old query.now) }
    ensures numbers { OnOk result (numbers.new ≡ numbers.old + ins_in query.now) }
{
    put_ins_below(&query.from, steps, numbers)?;
    put_subqueries(query.subs.as_slice(), steps, numbers)
}

/// Puts the steps of the IN subqueries in a FROM last.
#[cycle(steps)]
fn put_ins_below<'a>(
    from: &'a FromTree,
    steps: &mut Steps<'a>,
    numbers: &mut Numbers,
) -> Result<(), NoMemory>
    ensures steps { OnOk result (steps.new ≡ steps.old ++ steps_in_from numbers.old from.now) }
    ensures numbers { OnOk result (numbers.new ≡ numbers.old + ins_in_from from.now) }
{
    match from {
        FromTree::Table(..) | FromTree::Result(..) => Ok(()),
        FromTree::Sub(query) => put_ins(query.get(), steps, numbers),
        FromTree::Cross(a, b) => {
            put_ins_below(a.get(), steps, numbers)?;
            put_ins_below(b.get(), steps, numbers)
        }
        FromTree::Inner(a, b, _) => {
            put_ins_below(a.get(), steps, numbers)?;
            put_ins_below(b.get(), steps, numbers)
        }
        FromTree::Left(a, b, _) => {
            put_ins_below(a.get(), steps, numbers)?;
            put_ins_below(b.get(), steps, numbers)
        }
    }
}

/// Puts the steps of IN subqueries last, each numbered before those in it and computed behind them.
#[cycle(steps)]
fn put_subqueries<'a>(
    queries: &'a [Query],
    steps: &mut Steps<'a>,
    numbers: &mut Numbers,
) -> Result<(), NoMemory>
    ensures steps { OnOk result (steps.new ≡ steps.old ++ steps_in_list numbers.old queries.now) }
    ensures numbers { OnOk result (numbers.new ≡ numbers.old + ins_in_list queries.now) }
{
    for query in queries {
        let number = numbers.take()?;
        put_ins(query, steps, numbers)?;
        steps.put(Step::new(number, query))?;
    }
    Ok(())
}

/// Numbers so many results.
fn number_all(count: u64, numbers: &mut Numbers) -> Result<(), NoMemory>
    ensures { OnOk result (numbers.new ≡ numbers.old + count) }
{
    for _number in 0..count {
        numbers.take()?;
    }
    Ok(())
}

/// Puts the steps of CTEs last, which have the first numbers, each behind the IN subqueries in it.
fn put_ctes<'a>(
    ctes: &'a [Query],
    steps: &mut Steps<'a>,
    numbers: &mut Numbers,
) -> Result<(), NoMemory>
    ensures steps { OnOk result (steps.new ≡ steps.old ++ steps_in_cte_list 0 numbers.old ctes.now) }
    ensures numbers { OnOk result (numbers.new ≡ numbers.old + ins_in_cte_list ctes.now) }
{
    for (i, query) in ctes.iter().enumerate() {
        put_ins(query, steps, numbers)?;
        steps.put(Step::new(i as u64, query))?;
    }
    Ok(())
}

/// The CTEs and IN subqueries of a statement in the order in which they are computed, and a place for the result of each.
#[derive(Drop)]
pub struct Schedule<'a> {
    pub steps: Steps<'a>,
    pub results: Results,
}

/// The steps of a statement's query. A CTE has its number by its place in WITH; IN subqueries are numbered behind all CTEs, in the order in
/// which their SELECTs stand in the text.
pub fn steps_of(alloc: Global, query: &Query) -> Result<Schedule<'_>, NoMemory>
    ensures { IfOk result (λ schedule. (schedule.steps ≡ steps_by_rule query.now) × (schedule.results ≡ no_results query.now)) }
{
    let mut steps = Steps::new(alloc);
    let mut numbers = Numbers::new(alloc);
    number_all(query.ctes.len(), &mut numbers)?;
    put_ctes(query.ctes.as_slice(), &mut steps, &mut numbers)?;
    put_ins(query, &mut steps, &mut numbers)?;
    Ok(Schedule {
        steps,
        results: numbers.into_results(),
    })
}
