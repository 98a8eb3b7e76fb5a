ghost use Rattle.std.specs.Prelude.{◌≡◌, ◌↔◌, IsTrue};
ghost use Rattle.std.specs.Cmp.{IsTotalOrder};
ghost use Rattle.cq_value.specs.declared.value.Value.{Value};
ghost use Rattle.cq_value.specs.Order.{Comparable, compared, value_cmp};

use crate::value::Value;
use std::cmp::Ordering;

/// None where one is NULL.
pub fn compare(a: &Value, b: &Value) -> Option<Ordering>
    requires { Comparable a.now b.now }
    ensures { result ≡ compared a.now b.now }
{
    match a {
        Value::Null => None,
        Value::Int(x) => match b {
            Value::Int(y) => Some(x.cmp(y)),
            _ => None,
        },
        Value::Text(s) => match b {
            Value::Text(t) => Some(s.as_str().cmp(t.as_str())),
            _ => None,
        },
    }
}

/// Numbers, then texts by bytes, then NULL.
pub fn order(a: &Value, b: &Value) -> Ordering
    ensures { result ≡ value_cmp a.now b.now }
{
    match a {
        Value::Null => match b {
            Value::Null => Ordering::Equal,
            _ => Ordering::Greater,
        },
        Value::Int(x) => match b {
            Value::Int(y) => x.cmp(y),
            _ => Ordering::Less,
        },
        Value::Text(s) => match b {
            Value::Int(_) => Ordering::Greater,
            Value::Text(t) => s.as_str().cmp(t.as_str()),
            Value::Null => Ordering::Less,
        },
    }
}

/// Whether two values are one value.
pub fn same(a: &Value, b: &Value) -> bool
    ensures { IsTrue result ↔ (a.now ≡ b.now) }
{
    match a {
        Value::Null => matches!(b, Value::Null),
        Value::Int(x) => match b {
            Value::Int(y) => *x == *y,
            _ => false,
        },
        Value::Text(s) => match b {
            Value::Text(t) => s.as_str() == t.as_str(),
            _ => false,
        },
    }
}

/// What the order promises: it is total, and finds two values equal exactly where they are one value. Does nothing.
#[tactic(auto, using(crate::proofs::OrderLaws::value_cmp_total, crate::proofs::OrderLaws::value_cmp_same))]
pub fn order_laws()
    ensures total { IsTotalOrder value_cmp }
    ensures same { (a b : Value) → (value_cmp a b ≡ Ordering.Equal) ↔ (a ≡ b) }
{}
