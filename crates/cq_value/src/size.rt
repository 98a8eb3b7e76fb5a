ghost use Rattle.std.specs.Prelude.{◌≡◌, ◌≤◌, ◌+◌, ◌^◌, length, All};
ghost use Rattle.cq_value.specs.Sizes.{text_length, value_size as size_of_value, row_size as size_of_row};

use crate::row::Row;
use crate::value::Value;

fn value_size(value: &Value) -> u64
    requires { text_length value.now ≤ 2 ^ 24 }
    ensures same { result ≡ size_of_value value.now }
    ensures small { result ≤ 2 ^ 24 + 1 }
{
    match value {
        Value::Null => 1,
        Value::Int(_) => 9,
        Value::Text(t) => 1 + t.as_str().len() as u64,
    }
}

/// The size of a row: 1 for each column, 8 for each number, and the bytes of each text. A row has at most 1,024 columns,
/// and a text at most 2^24 bytes.
pub fn row_size(row: &Row) -> u64
    requires columns { length row.now ≤ 1024 }
    requires texts { All (λ v. text_length v ≤ 2 ^ 24) row.now }
    ensures { result ≡ size_of_row row.now }
{
    let mut size = 0;
    for value in row.as_slice() {
        size += value_size(value);
    }
    size
}
