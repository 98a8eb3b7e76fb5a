ghost use Rattle.std.specs.Prelude.{◌≡◌, Some, IfOk};
ghost use Rattle.cq_reading.specs.Titles as title;
ghost use Rattle.cq_reading.specs.Walk.{part_of};

use cq_grammar::{Aggregate, Expr};
use cq_value::{NoMemory, Text};
use std::alloc::Global;

fn aggregate_title(function: Aggregate) -> &'static str
    ensures { result.now ≡ title.aggregate_title function }
{
    match function {
        Aggregate::Count => "count",
        Aggregate::Sum => "sum",
        Aggregate::Min => "min",
        Aggregate::Max => "max",
    }
}

/// The name of a CASE, by the name of its ELSE.
fn case_title(otherwise: &str) -> &str
    ensures { result.now ≡ title.case_title (Some otherwise.now) }
{
    if otherwise == "?column?" {
        "case"
    } else {
        otherwise
    }
}

#[tactic(auto, using(crate::proofs::Looks::looks))]
fn title_in(e: &Expr) -> &str
    ensures { result.now ≡ (part_of e.now).title }
{
    match e {
        Expr::Column { column } | Expr::ColumnOf { column, .. } => column.text.as_str(),
        Expr::Group { inner, .. } => title_in(inner.get()),
        Expr::Case { otherwise, .. } => match otherwise {
            Some(otherwise) => case_title(title_in(otherwise.get())),
            None => "case",
        },
        Expr::Coalesce { .. } => "coalesce",
        Expr::CountAll { .. } => "count",
        Expr::Aggregate { function, .. } => aggregate_title(*function),
        Expr::Or { .. }
        | Expr::And { .. }
        | Expr::Not { .. }
        | Expr::Is { .. }
        | Expr::Compare { .. }
        | Expr::Tested { .. }
        | Expr::Sum { .. }
        | Expr::Product { .. }
        | Expr::Signed { .. }
        | Expr::Number { .. }
        | Expr::Quoted { .. }
        | Expr::Null { .. } => "?column?",
    }
}

/// The name of an output that has no AS: the column's, the aggregate's, `coalesce`, `case`, or `?column?`.
pub fn title(alloc: Global, e: &Expr) -> Result<Text, NoMemory>
    ensures { IfOk result (λ t. t ≡ (part_of e.now).title) }
{
    Text::of(alloc, title_in(e))
}
