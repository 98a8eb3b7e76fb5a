use crate::level::Level;
use crate::subquery::in_expr;
use cq_tree::{Cond, Expr, Op};

/// The form in which a condition is written.
#[derive(Clone, Copy)]
pub(crate) enum Form {
    /// A chain of so many parts: of OR where `any`, or else of AND.
    Chain { any: bool, parts: u64 },
    /// `x IN (a, b)` of so many items, where x has the IN subquery of this number in it.
    List { number: u32, items: u64 },
    /// `x BETWEEN a AND b`, where x has an IN subquery in it.
    Between,
    /// Any other.
    Single,
}

/// Whether a chain of both is read as these two: a chain is read as its halves, of which the first may have one part more.
fn are_halves(left: u64, right: u64) -> bool {
    left == right || left > 0 && left - 1 == right
}

impl Form {
    pub(crate) fn of(c: &Cond) -> Form {
        match c {
            Cond::Compare(Op::Eq, x, _) => Form::of_equality(x),
            Cond::And(low, high) if are_ends(low.get(), high.get()) => Form::Between,
            Cond::And(a, b) => Form::chain(false, Form::of(a.get()), Form::of(b.get())),
            Cond::Or(a, b) => Form::of_any(Form::of(a.get()), Form::of(b.get())),
            _ => Form::Single,
        }
    }

    fn of_equality(x: &Expr) -> Form {
        match in_expr(x) {
            Some(number) => Form::List { number, items: 1 },
            None => Form::Single,
        }
    }

    fn of_any(left: Form, right: Form) -> Form {
        match (left, right) {
            (
                Form::List { number, items },
                Form::List {
                    number: same,
                    items: more,
                },
            ) if number == same && are_halves(items, more) => Form::List {
                number,
                items: items.saturating_add(more),
            },
            _ => Form::chain(true, left, right),
        }
    }

    fn chain(any: bool, left: Form, right: Form) -> Form {
        let parts = if left.is_half(any, right) {
            left.parts(any).saturating_add(right.parts(any))
        } else {
            2
        };
        Form::Chain { any, parts }
    }

    /// How many parts it is of such a chain.
    fn parts(self, any: bool) -> u64 {
        match self {
            Form::Chain { any: other, parts } if any == other => parts,
            _ => 1,
        }
    }

    /// Whether it and this other are written as one chain.
    pub(crate) fn is_half(self, any: bool, other: Form) -> bool {
        are_halves(self.parts(any), other.parts(any))
    }

    pub(crate) fn level(self) -> Level {
        match self {
            Form::Chain { any: true, .. } => Level::Or,
            Form::Chain { any: false, .. } => Level::And,
            Form::List { .. } | Form::Between | Form::Single => Level::Not,
        }
    }
}

/// Whether one operand, which has an IN subquery in it, is compared with both ends of a range.
fn are_ends(low: &Cond, high: &Cond) -> bool {
    match (low, high) {
        (Cond::Compare(Op::Ge, x, _), Cond::Compare(Op::Le, y, _)) => match in_expr(x) {
            Some(number) => in_expr(y) == Some(number),
            None => false,
        },
        _ => false,
    }
}
