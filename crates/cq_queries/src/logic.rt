ghost use Rattle.std.specs.Prelude.{◌≡◌};
ghost use Rattle.cq_meaning.specs.Logic.{and_of, or_of, not_of, met, is_yes};

use cq_tree::Op;
use cq_value::Truth;
use std::cmp::Ordering;

/// Whether a condition is true, as WHERE, ON and HAVING ask.
pub fn is_true(t: Truth) -> bool
    ensures { result ≡ is_yes t }
{
    t == Truth::Yes
}

pub fn both(a: Truth, b: Truth) -> Truth
    ensures { result ≡ and_of a b }
{
    match (a, b) {
        (Truth::No, _) | (_, Truth::No) => Truth::No,
        (Truth::Yes, Truth::Yes) => Truth::Yes,
        _ => Truth::Unknown,
    }
}

pub fn either(a: Truth, b: Truth) -> Truth
    ensures { result ≡ or_of a b }
{
    match (a, b) {
        (Truth::Yes, _) | (_, Truth::Yes) => Truth::Yes,
        (Truth::No, Truth::No) => Truth::No,
        _ => Truth::Unknown,
    }
}

pub fn negated(a: Truth) -> Truth
    ensures { result ≡ not_of a }
{
    match a {
        Truth::Yes => Truth::No,
        Truth::No => Truth::Yes,
        Truth::Unknown => Truth::Unknown,
    }
}

/// Whether two values in this order meet the sign: unknown where they have none.
pub fn holds(op: Op, order: Option<Ordering>) -> Truth
    ensures { result ≡ met op order }
{
    let Some(order) = order else {
        return Truth::Unknown;
    };
    let yes = match op {
        Op::Eq => order.is_eq(),
        Op::Ne => order.is_ne(),
        Op::Lt => order.is_lt(),
        Op::Le => order.is_le(),
        Op::Gt => order.is_gt(),
        Op::Ge => order.is_ge(),
    };
    if yes { Truth::Yes } else { Truth::No }
}
