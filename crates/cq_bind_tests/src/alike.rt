//! Whether values can be compared with each other.

ghost use Rattle.std.specs.Prelude.{◌≡◌, ◌∷◌, []};
ghost use Rattle.cq_reading.specs.Widths as widths;

use cq_reading::{Bound, Type};

/// The type of values of these two types, if they can be compared.
fn common(t: Type, u: Type) -> Option<Type>
    ensures { result ≡ widths.common t u }
{
    match (t, u) {
        (Type::Null, t) | (t, Type::Null) => Some(t),
        (Type::Number, Type::Number) => Some(Type::Number),
        (Type::Text, Type::Text) => Some(Type::Text),
        _ => None,
    }
}

pub(crate) fn common_with(t: Option<Type>, b: &Bound) -> Option<Type>
    ensures { result ≡ widths.common_with t b.now }
{
    match (t, b) {
        (Some(t), Bound::Value(_, u, _)) => common(t, *u),
        _ => None,
    }
}

/// The type of values of this type and of all of these, if they have one.
#[tactic(auto, using(crate::proofs::Results::common_more))]
pub(crate) fn common_from(first: Option<Type>, items: &[Bound]) -> Option<Type>
    ensures { result ≡ widths.common_from first items.now }
{
    let mut kind = first;
    for item in items {
        kind = common_with(kind, item);
    }
    kind
}

/// Whether two values can be compared.
pub(crate) fn are_alike(a: &Bound, b: &Bound) -> bool
    ensures { result ≡ widths.are_alike a.now b.now }
{
    common_with(common_with(Some(Type::Null), a), b).is_some()
}

/// Whether three values can be compared with each other.
pub(crate) fn do_three_agree(a: &Bound, b: &Bound, c: &Bound) -> bool
    ensures { result ≡ widths.agree (a.now ∷ b.now ∷ c.now ∷ []) }
{
    common_with(common_with(common_with(Some(Type::Null), a), b), c).is_some()
}

/// Whether a value and all of these can be compared with each other.
pub(crate) fn do_agree(a: &Bound, items: &[Bound]) -> bool
    ensures { result ≡ widths.agree (a.now ∷ items.now) }
{
    common_from(common_with(Some(Type::Null), a), items).is_some()
}
