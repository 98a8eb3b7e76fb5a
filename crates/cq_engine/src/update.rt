ghost use Rattle.std.specs.Prelude.{◌≡◌, ◌<◌, [], length, IfOk, All};
ghost use Rattle.cq_meaning.specs.Effects.{updated, fits_kind, fits_kinds as row_fits};
ghost use Rattle.cq_meaning.specs.Safety.{IsSafe};

use cq_queries::{Lookups, eval};
use cq_tree::Set;
use cq_value::{Kind, NoMemory, Row, Value};
use std::alloc::Global;

fn fits(kind: Kind, v: &Value) -> bool
    ensures { result ≡ fits_kind kind v.now }
{
    match kind {
        Kind::Bigint => match v {
            Value::Int(x) => -9223372036854775808 <= *x && *x < 9223372036854775808,
            _ => true,
        },
        Kind::Integer => match v {
            Value::Int(x) => -2147483648 <= *x && *x < 2147483648,
            _ => true,
        },
        Kind::Text => true,
    }
}

/// Whether each value is one of its column's type.
pub fn fits_kinds(kinds: &[Kind], row: &[Value]) -> bool
    ensures { result ≡ row_fits kinds.now row.now }
{
    match kinds {
        [] => true,
        [kind, kinds @ ..] => match row {
            [] => true,
            [v, vs @ ..] => fits(*kind, v) && fits_kinds(kinds, vs),
        },
    }
}

/// A row after an UPDATE. Each value is computed over the row as it was.
pub fn update_row(alloc: Global, sets: &[Set], row: &Row) -> Result<Row, NoMemory>
    requires safe { All (λ s. IsSafe s.value row.now []) sets.now }
    requires within { All (λ s. s.column < length row.now) sets.now }
    ensures { IfOk result (λ new. new ≡ updated sets.now row.now) }
{
    let none = Lookups::new(alloc);
    let mut new = row.copy(alloc)?.into_values(alloc)?;
    for s in sets {
        let v = eval(alloc, &s.value, row, &none)?;
        new.set(s.column as u64, v);
    }
    Row::shared(alloc, new)
}
