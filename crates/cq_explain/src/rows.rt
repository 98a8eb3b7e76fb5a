ghost use Rattle.std.specs.Prelude.{◌≡◌, [], ◌∷◌, map, IfOk};
ghost use Rattle.cq_value.specs.declared.value.Value.TheVariants as value;

use crate::lines::Lines;
use cq_value::{NoMemory, Row, Rows, Value, Values};
use std::alloc::Global;

/// The lines of a text as rows of one column. `Err` is want of memory.
pub fn rows_of(alloc: Global, lines: Lines) -> Result<Rows, NoMemory>
    ensures { IfOk result (λ rows. rows ≡ map (λ l. value.Text l ∷ []) lines) }
{
    let mut rows = Rows::new(alloc);
    for line in lines.into_vec() {
        let mut values = Values::new(alloc);
        values.put(Value::Text(line))?;
        rows.put(Row::from_values(values))?;
    }
    Ok(rows)
}
