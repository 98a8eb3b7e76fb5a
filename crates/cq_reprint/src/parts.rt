//! Whether two parts of statements are one, for parts that are not made of themselves, and for lists.

ghost use Rattle.std.specs.Prelude.{◌≡◌, ◌↔◌, IsTrue};

use cq_same::{same_cond, same_expr};
use cq_tree::{Agg, Cond, Expr, Key, Set};
use cq_value::{Column, Items, Row, Text, Value, With};

/// A type of which two values are compared whole.
pub(crate) trait Same {
    /// Whether the two are one value.
    fn same(&self, other: &Self) -> bool
        ensures { IsTrue result ↔ (self.now ≡ other.now) };
}

impl Same for u32 {
    fn same(&self, other: &u32) -> bool {
        *self == *other
    }
}

impl Same for Text {
    fn same(&self, other: &Text) -> bool {
        self.as_str() == other.as_str()
    }
}

impl Same for Value {
    fn same(&self, other: &Value) -> bool {
        cq_value::same(self, other)
    }
}

impl Same for Row {
    fn same(&self, other: &Row) -> bool {
        same_slices(self.as_slice(), other.as_slice())
    }
}

impl Same for Column {
    fn same(&self, other: &Column) -> bool {
        self.name.same(&other.name) && self.kind == other.kind
    }
}

impl Same for With {
    fn same(&self, other: &With) -> bool {
        match self {
            With::Default => matches!(other, With::Default),
            With::Alone => matches!(other, With::Alone),
            With::Table(table) => match other {
                With::Table(another) => table.same(another),
                _ => false,
            },
        }
    }
}

impl Same for Key {
    fn same(&self, other: &Key) -> bool {
        self.item == other.item && self.descending == other.descending
    }
}

#[tactic(auto, using(cq_same::proofs::Decided::exprs_decided))]
impl Same for Expr {
    fn same(&self, other: &Expr) -> bool {
        same_expr(self, other)
    }
}

#[tactic(auto, using(cq_same::proofs::Decided::conds_decided))]
impl Same for Cond {
    fn same(&self, other: &Cond) -> bool {
        same_cond(self, other)
    }
}

impl Same for Agg {
    fn same(&self, other: &Agg) -> bool {
        match self {
            Agg::CountAll => matches!(other, Agg::CountAll),
            Agg::Count(e) => match other {
                Agg::Count(f) => e.same(f),
                _ => false,
            },
            Agg::Sum(e) => match other {
                Agg::Sum(f) => e.same(f),
                _ => false,
            },
            Agg::Min(e) => match other {
                Agg::Min(f) => e.same(f),
                _ => false,
            },
            Agg::Max(e) => match other {
                Agg::Max(f) => e.same(f),
                _ => false,
            },
        }
    }
}

impl Same for Set {
    fn same(&self, other: &Set) -> bool {
        self.column == other.column && self.value.same(&other.value)
    }
}

impl<T: Same> Same for Items<T> {
    fn same(&self, other: &Items<T>) -> bool {
        same_slices(self.as_slice(), other.as_slice())
    }
}

fn same_slices<T: Same>(a: &[T], b: &[T]) -> bool
    ensures { IsTrue result ↔ (a.now ≡ b.now) }
{
    if a.len() != b.len() {
        return false;
    }
    'each: for (i, x) in a.iter().enumerate() {
        if !x.same(&b[i]) {
            return false;
        }
    }
    true
}
