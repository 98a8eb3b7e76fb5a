ghost use Rattle.std.specs.Prelude.{◌≡◌, ◌+◌, ◌++◌, [], ◌∷◌, codes, decimal, map, slice_index_or, IfOk, OnOk};
ghost use Rattle.cq_one_plan.specs.declared.plan.Plan.{out-Plan};
ghost use Rattle.cq_one_plan.specs.Reading.{outline_in, explained_by};
ghost use Rattle.cq_outline.specs.Texts as texts;
ghost use Rattle.cq_explain.specs.Subplans.{nodes_by, count_of, lines_of, tables_in};

use crate::shards::shards_read;
use cq_catalog::Catalog;
use cq_one_plan::{Plan, Touch};
use cq_relations::plus;
use cq_tree::{Combine, Planner, Step, Task};
use cq_value::{Items, NoMemory, Positions, Text};
use std::alloc::Global;

/// Lines of a text.
pub type Lines = Items<Text>;

/// What the lines of a plan are read from beside it: the catalogue, and the node of each group.
#[derive(Clone, Copy)]
struct Site<'a> {
    alloc: Global,
    catalog: &'a Catalog,
    nodes: &'a [u32],
}

fn planner_words(planner: Planner) -> &'static str
    ensures { result.now ≡ texts.planner_words planner }
{
    match planner {
        Planner::FastPath => "Planner: fast path",
        Planner::Router => "Planner: router",
        Planner::Pushdown => "Planner: pushdown",
        Planner::Repartition => "Planner: repartition",
        Planner::Coordinator => "Planner: coordinator",
    }
}

fn step_words(step: Step) -> &'static str
    ensures { result.now ≡ texts.step_words step }
{
    match step {
        Step::Single => "Repartition: single",
        Step::Dual => "Repartition: dual",
    }
}

fn combine_words(combine: Combine) -> &'static str
    ensures { result.now ≡ texts.combine_words combine }
{
    match combine {
        Combine::Nothing => "Combine: none",
        Combine::RowsOnly => "Combine: rows",
        Combine::Groups => "Combine: group",
    }
}

/// Words behind so many blanks.
#[tactic(auto, using(crate::proofs::LineLaws::blanks))]
fn line(alloc: Global, depth: u64, words: &str) -> Result<Text, NoMemory>
    ensures { IfOk result (λ t. t ≡ texts.line depth words.now) }
{
    let Ok(mut line) = " ".repeat(alloc, depth as usize) else {
        return Err(NoMemory);
    };
    match line.push_str(words) {
        Ok(()) => Text::of_string(alloc, line),
        Err(_) => Err(NoMemory),
    }
}

/// Puts a line of these words last, behind so many blanks.
fn put(alloc: Global, lines: &mut Lines, depth: u64, words: &str) -> Result<(), NoMemory>
    ensures { OnOk result (lines.new ≡ lines.old ++ texts.line depth words.now ∷ []) }
{
    lines.put(line(alloc, depth, words)?)
}

/// Puts a line of these words and a number last.
fn put_number(
    alloc: Global,
    lines: &mut Lines,
    depth: u64,
    words: &str,
    number: u64,
) -> Result<(), NoMemory>
    ensures { OnOk result (lines.new ≡ lines.old ++ texts.line depth (words.now ++ decimal number) ∷ []) }
{
    match format!(in alloc; "{words}{number}") {
        Ok(text) => put(alloc, lines, depth, text.as_str()),
        Err(_) => Err(NoMemory),
    }
}

/// Puts a line for each step of a repartition last.
fn put_steps(alloc: Global, lines: &mut Lines, depth: u64, steps: &[Step]) -> Result<(), NoMemory>
    ensures { OnOk result (lines.new ≡ lines.old ++ map (λ s. texts.line depth (texts.step_words s)) steps.now) }
{
    'steps: for step in steps {
        put(alloc, lines, depth, step_words(*step))?;
    }
    Ok(())
}

/// The node of a task: that of its group, and node 1 where it has none.
fn node_of(nodes: &[u32], group: Option<u32>) -> u32
    ensures { result ≡ texts.node_by (nodes_by nodes.now) group }
{
    match group {
        Some(group) => nodes.get(group as usize).copied().unwrap_or(0),
        None => 1,
    }
}

/// Puts the line that says how many of so many tasks are shown last.
fn put_shown(alloc: Global, lines: &mut Lines, depth: u64, tasks: u64) -> Result<(), NoMemory>
    ensures { OnOk result (lines.new ≡ lines.old ++ texts.line depth (texts.shown_words tasks) ∷ []) }
{
    if tasks == 1 {
        put(alloc, lines, depth, "Tasks Shown: All")
    } else {
        put_number(alloc, lines, depth, "Tasks Shown: One of ", tasks)
    }
}

/// The tables alone.
fn tables_of(alloc: Global, touches: &[Touch]) -> Result<Positions, NoMemory>
    ensures { IfOk result (λ v. v ≡ tables_in touches.now) }
{
    let mut tables = Positions::new(alloc);
    for touch in touches {
        tables.put(touch.0)?;
    }
    Ok(tables)
}

/// Puts the line of the shards that a task reads last, which a repartition doesn't have.
fn put_shards(
    site: Site<'_>,
    lines: &mut Lines,
    depth: u64,
    plan: &Plan,
    group: Option<u32>,
) -> Result<(), NoMemory>
    ensures { OnOk result (lines.new ≡ lines.old ++ texts.shard_lines site.entry.catalog.now (out-Plan plan.now).planner (tables_in (out-Plan plan.now).touches) depth group) }
{
    match plan.planner {
        Planner::Repartition => Ok(()),
        Planner::FastPath | Planner::Router | Planner::Pushdown | Planner::Coordinator => {
            let tables = tables_of(site.alloc, plan.touches.as_slice())?;
            let words = shards_read(site.alloc, site.catalog, group, tables.as_slice())?;
            put(site.alloc, lines, depth, words.as_str())
        }
    }
}

/// Puts the lines of a task last.
fn put_task(
    site: Site<'_>,
    lines: &mut Lines,
    depth: u64,
    plan: &Plan,
    group: Option<u32>,
) -> Result<(), NoMemory>
    ensures { OnOk result (lines.new ≡ lines.old ++ (texts.line depth (codes "->  Task") ∷ (texts.line (depth + 6) (codes "Node: " ++ decimal (texts.node_by (nodes_by site.entry.nodes.now) group)) ∷ texts.shard_lines site.entry.catalog.now (out-Plan plan.now).planner (tables_in (out-Plan plan.now).touches) (depth + 6) group))) }
{
    let inner = plus(depth, 6)?;
    put(site.alloc, lines, depth, "->  Task")?;
    let node = u64::from(node_of(site.nodes, group));
    put_number(site.alloc, lines, inner, "Node: ", node)?;
    put_shards(site, lines, inner, plan, group)
}

/// Puts how many tasks a block has last, and the lines of the first.
fn put_tasks(site: Site<'_>, lines: &mut Lines, depth: u64, plan: &Plan) -> Result<(), NoMemory>
    ensures { OnOk result (lines.new ≡ lines.old ++ texts.task_lines site.entry.catalog.now (nodes_by site.entry.nodes.now) (out-Plan plan.now).planner (tables_in (out-Plan plan.now).touches) depth (out-Plan plan.now).tasks) }
{
    let count = plan.tasks.len();
    put_number(site.alloc, lines, depth, "Task Count: ", count)?;
    match plan.tasks.get(0) {
        Some(first) => {
            put_shown(site.alloc, lines, depth, count)?;
            put_task(site, lines, depth, plan, first.group)
        }
        None => Ok(()),
    }
}

/// Puts the lines of a plan last, behind so many blanks, where `number` is that of the first subplan in it. Gives the number behind its
/// subplans.
#[cycle(lines)]
fn put_plan(
    site: Site<'_>,
    lines: &mut Lines,
    depth: u64,
    number: u64,
    plan: &Plan,
) -> Result<u64, NoMemory>
    ensures lines { OnOk result (lines.new ≡ lines.old ++ texts.lines_from site.entry.catalog.now (nodes_by site.entry.nodes.now) depth number (outline_in plan.now)) }
    ensures next { IfOk result (λ next. next ≡ number + texts.subplans_in (outline_in plan.now)) }
{
    let inner = plus(depth, 2)?;
    put(site.alloc, lines, depth, "Custom Scan (Citus Adaptive)")?;
    put(site.alloc, lines, inner, planner_words(plan.planner))?;
    put_steps(site.alloc, lines, inner, plan.parting.steps.as_slice())?;
    let next = put_subplans(site, lines, inner, number, plan.subplans.as_slice())?;
    put(site.alloc, lines, inner, combine_words(plan.combine))?;
    put_tasks(site, lines, inner, plan)?;
    Ok(next)
}

/// Puts the lines of subplans last, each behind a line with its number, the first of which is `number`. Gives the number behind them.
#[cycle(lines)]
fn put_subplans(
    site: Site<'_>,
    lines: &mut Lines,
    depth: u64,
    number: u64,
    subplans: &[Plan],
) -> Result<u64, NoMemory>
    ensures lines { OnOk result (lines.new ≡ lines.old ++ lines_of site.entry.catalog.now (nodes_by site.entry.nodes.now) depth number subplans.now) }
    ensures next { IfOk result (λ next. next ≡ number + count_of subplans.now) }
{
    let inner = plus(depth, 6)?;
    let mut next = number;
    'subplans: for subplan in subplans {
        put_number(site.alloc, lines, depth, "->  Distributed Subplan ", next)?;
        next = put_plan(site, lines, inner, plus(next, 1)?, subplan)?;
    }
    Ok(next)
}

/// EXPLAIN's lines of a plan, where each group is on the node that stands at its place, 0 of one that is on every node. `Err` is want of memory.
pub fn text(alloc: Global, catalog: &Catalog, nodes: &[u32], plan: &Plan) -> Result<Lines, NoMemory>
    ensures { IfOk result (λ lines. lines ≡ explained_by catalog.now (λ g. slice_index_or nodes.now g 0) plan.now) }
{
    let mut lines = Lines::new(alloc);
    let site = Site {
        alloc,
        catalog,
        nodes,
    };
    put_plan(site, &mut lines, 0, 1, plan)?;
    Ok(lines)
}
