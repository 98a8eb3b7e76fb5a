ghost use Rattle.std.specs.Prelude.{◌≡◌, position};
ghost use Rattle.cq_reading.specs.Equal.{equal_aggs};
ghost use Rattle.cq_reading.specs.Outcomes.{Binds};
ghost use Rattle.cq_reading.specs.Rules as rule;
ghost use Rattle.cq_reading.specs.Widths.{expr_of};
ghost use Rattle.cq_bind_rules.specs.Placing.{PlacedIn, SummedOr};

use crate::columns::column_number;
use cq_bind_operands::{expr, is_number, is_value, kind, width};
use cq_grammar::Aggregate;
use cq_reading::{BindError, Bound, Found, Scope, Type};
use cq_same::same_expr;
use cq_tree::{Agg, Expr};

/// Whether two aggregates are one aggregate.
fn same_agg(a: &Agg, b: &Agg) -> bool
    ensures { result ≡ equal_aggs a.now b.now }
{
    match (a, b) {
        (Agg::CountAll, Agg::CountAll) => true,
        (Agg::Count(e), Agg::Count(f))
        | (Agg::Sum(e), Agg::Sum(f))
        | (Agg::Min(e), Agg::Min(f))
        | (Agg::Max(e), Agg::Max(f)) => same_expr(e, f),
        _ => false,
    }
}

fn agg_place(aggs: &[Agg], agg: &Agg) -> Option<usize>
    ensures { result ≡ position (equal_aggs agg.now) aggs.now }
{
    aggs.iter().position(|a| same_agg(agg, a))
}

/// The place of an aggregate in its SELECT: that of an equal one before it, or a new one.
fn place_in(found: &mut Found, agg: Agg) -> Result<u64, BindError>
    ensures { PlacedIn found.old agg result found.new }
{
    match agg_place(found.aggs.as_slice(), &agg) {
        Some(i) => {
            drop(agg);
            Ok(i as u64)
        }
        None => {
            let place = found.aggs.len();
            found.aggs.put(agg)?;
            Ok(place)
        }
    }
}

/// The column of an aggregate, which stands behind the keys.
fn aggregated(
    found: &mut Found,
    scope: &Scope<'_>,
    agg: Agg,
    kind: Type,
    width: u32,
) -> Result<Bound, BindError>
    ensures { Binds (rule.aggregated scope.now agg kind width found.old) result found.new }
{
    let place = place_in(found, agg)?;
    let column = column_number((scope.keys.len() as u64).saturating_add(place))?;
    Ok(Bound::Value(Expr::Column(column), kind, width))
}

/// `COUNT(*)`. It is refused at `at` with 15 where no aggregate may stand, and with 19 where the FROM is joined.
pub fn counted(found: &mut Found, scope: &Scope<'_>, at: u64) -> Result<Bound, BindError>
    ensures { Binds (rule.counted scope.now at found.old) result found.new }
{
    if !scope.may_aggregate {
        return Err(BindError::NotGrouped { at });
    }
    if scope.joined {
        return Err(BindError::GroupedJoin { at });
    }
    aggregated(found, scope, Agg::CountAll, Type::Number, 32)
}

fn agg_of(function: Aggregate, e: Expr) -> Agg
    ensures { result ≡ rule.agg_of function e }
{
    match function {
        Aggregate::Count => Agg::Count(e),
        Aggregate::Sum => Agg::Sum(e),
        Aggregate::Min => Agg::Min(e),
        Aggregate::Max => Agg::Max(e),
    }
}

fn takes(function: Aggregate, a: &Bound) -> bool
    ensures { result ≡ rule.takes function a.now }
{
    match function {
        Aggregate::Sum => is_number(a),
        Aggregate::Count | Aggregate::Min | Aggregate::Max => is_value(a),
    }
}

fn aggregate_type(function: Aggregate, a: &Bound) -> Type
    ensures { result ≡ rule.aggregate_type function a.now }
{
    match function {
        Aggregate::Count | Aggregate::Sum => Type::Number,
        Aggregate::Min | Aggregate::Max => kind(a),
    }
}

fn aggregate_width(function: Aggregate, a: &Bound) -> u64
    ensures { result ≡ rule.aggregate_width function a.now }
{
    match function {
        Aggregate::Count => 32,
        Aggregate::Sum => u64::from(width(a)) + 31,
        Aggregate::Min | Aggregate::Max => u64::from(width(a)),
    }
}

/// The width of an aggregate that may stand here.
fn judged(scope: &Scope<'_>, function: Aggregate, a: &Bound, at: u64) -> Result<u32, BindError>
    ensures { SummedOr scope.now function a.now at result }
{
    if !scope.may_aggregate {
        return Err(BindError::NotGrouped { at });
    }
    if !takes(function, a) {
        return Err(BindError::Type { at });
    }
    let bits = aggregate_width(function, a);
    if bits > 127 {
        return Err(BindError::TooWide { at });
    }
    if scope.joined {
        return Err(BindError::GroupedJoin { at });
    }
    Ok(bits as u32)
}

/// The column of an aggregate of `a`, of this width.
fn placed(
    found: &mut Found,
    scope: &Scope<'_>,
    function: Aggregate,
    a: Bound,
    width: u32,
) -> Result<Bound, BindError>
    ensures { Binds (rule.aggregated scope.now (rule.agg_of function (expr_of a)) (rule.aggregate_type function a) width found.old) result found.new }
{
    let kind = aggregate_type(function, &a);
    aggregated(found, scope, agg_of(function, expr(a)), kind, width)
}

/// An aggregate of `a`. It is refused at `at` with 15 where no aggregate may stand, then with 14 where it doesn't take `a`, with 16
/// where its width is above 127, and with 19 where the FROM is joined.
pub fn summed(
    found: &mut Found,
    scope: &Scope<'_>,
    function: Aggregate,
    a: Bound,
    at: u64,
) -> Result<Bound, BindError>
    ensures { Binds (rule.summed scope.now function a at found.old) result found.new }
{
    match judged(scope, function, &a, at) {
        Ok(width) => placed(found, scope, function, a, width),
        Err(e) => {
            drop(a);
            Err(e)
        }
    }
}
