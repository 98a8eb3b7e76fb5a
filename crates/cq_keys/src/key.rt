ghost use Rattle.std.specs.Prelude.{◌≡◌, fold, IfOk};
ghost use Rattle.std.proofs.Common.{ap};
ghost use Rattle.std.specs.List.{flat_map};
ghost use Rattle.std.specs.Cmp.{on_equiv, on_per, eq_by_cmp_equiv, partial_equiv_from_equiv};
ghost use Rattle.cq_meaning.specs.Values.{row_cmp, same_row};
ghost use Rattle.cq_keys.specs.Keys.{value_writes, row_writes};
ghost use Rattle.cq_keys.specs.KeyLaws.{row_cmp_total, one_row};

use cq_value::{NoMemory, Row, Value, order};
use std::alloc::Global;
use std::cmp::Ordering;
use std::hash::{Hash, Hasher};

/// Rows by their first column, then by their second, and so on.
fn compare_rows(a: &[Value], b: &[Value]) -> Ordering
    ensures { result ≡ row_cmp a.now b.now }
{
    match a {
        [] => match b {
            [] => Ordering::Equal,
            _ => Ordering::Less,
        },
        [x, xs @ ..] => match b {
            [] => Ordering::Greater,
            [y, ys @ ..] => match order(x, y) {
                Ordering::Equal => compare_rows(xs, ys),
                other => other,
            },
        },
    }
}

/// A row as a key of a map. Two are equal exactly where they are one row: numbers by their value, texts by bytes, NULL as itself.
#[derive(Debug, Drop)]
pub struct RowKey {
    pub row: Row,
}

impl PartialEq for RowKey {
    ghost eq = { λ a b. same_row a.row b.row };

    ghost laws = { on_per (λ k. k.row) (partial_equiv_from_equiv (eq_by_cmp_equiv row_cmp_total)) };

    fn eq(&self, other: &RowKey) -> bool {
        compare_rows(self.row.as_slice(), other.row.as_slice()).is_eq()
    }
}

impl Eq for RowKey {
    ghost laws = { on_equiv (λ k. k.row) (eq_by_cmp_equiv row_cmp_total) };
}

/// Feeds a value to a hash: of a number its lower 64 bits, of which most have no more.
fn feed<H: Hasher>(v: &Value, state: &mut H)
    ensures { state.new ≡ fold H.write state.old (value_writes v.now) }
{
    match v {
        Value::Null => state.write_u8(0),
        Value::Int(x) => { state.write_u64((x.cast_unsigned() & 0xFFFF_FFFF_FFFF_FFFF) as u64) }
        Value::Text(t) => t.as_str().hash(state),
    }
}

/// Feeds values in their order.
fn feed_all<H: Hasher>(values: &[Value], state: &mut H)
    ensures { state.new ≡ fold H.write state.old (row_writes values.now) }
{
    for v in values {
        feed(v, state);
    }
}

impl Hash for RowKey {
    ghost hash_input = { λ k. row_writes k.row };

    ghost respects_eq = { λ a b h. ap row_writes (one_row a.row b.row h) };

    fn hash<H: Hasher>(&self, state: &mut H) {
        feed_all(self.row.as_slice(), state);
    }
}
