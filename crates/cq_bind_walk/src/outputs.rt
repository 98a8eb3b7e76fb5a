//! The outputs of a SELECT, and their names.

ghost use Rattle.std.specs.Prelude.{◌≡◌, map, length, IfOk};
ghost use Rattle.cq_reading.specs.Selects.{output_of as output_in};

use cq_bind_names::{type_of, width_of};
use cq_reading::{Output, Outputs, Shown, ShownList};
use cq_value::{Names, NoMemory};
use std::alloc::Global;

/// How many outputs there are. No list is so long that their number doesn't fit.
pub fn count(outputs: &ShownList) -> Result<u32, NoMemory>
    ensures { IfOk result (λ n. n ≡ length outputs.now) }
{
    match u32::try_from(outputs.len()) {
        Ok(n) => Ok(n),
        Err(_) => Err(NoMemory),
    }
}

/// The names of outputs.
pub fn names_of(alloc: Global, outputs: &[Shown]) -> Result<Names, NoMemory>
    ensures { IfOk result (λ names. names ≡ map (λ s. s.title) outputs.now) }
{
    let mut names = Names::with_room(alloc, outputs.len() as u64)?;
    for shown in outputs {
        names.put(shown.title.copy(alloc)?)?;
    }
    Ok(names)
}

fn output_of(shown: Shown) -> Output
    ensures { result ≡ output_in shown }
{
    let Shown { title, bound } = shown;
    Output {
        name: title,
        kind: type_of(&bound),
        width: width_of(&bound),
    }
}

/// Outputs without what they are bound to.
pub fn outputs_of(alloc: Global, outputs: ShownList) -> Result<Outputs, NoMemory>
    ensures { IfOk result (λ all. all ≡ map output_in outputs) }
{
    let mut all = Outputs::with_room(alloc, outputs.len())?;
    for shown in outputs.into_vec() {
        all.put(output_of(shown))?;
    }
    Ok(all)
}
