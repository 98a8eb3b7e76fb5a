ghost use Rattle.std.specs.Prelude.{◌≡◌, ◌+◌, Ok, IfOk};

use crate::text::NoMemory;

/// Both values, where memory sufficed for both.
pub fn both<A: Drop, B: Drop>(
    a: Result<A, NoMemory>,
    b: Result<B, NoMemory>,
) -> Result<(A, B), NoMemory>
    ensures { IfOk result (λ p. (a ≡ Ok p.0) × (b ≡ Ok p.1)) }
{
    match (a, b) {
        (Ok(x), Ok(y)) => Ok((x, y)),
        _ => Err(NoMemory),
    }
}

/// A number of so many things. No list is so long that it doesn't fit.
pub fn small(n: u64) -> Result<u32, NoMemory>
    ensures { IfOk result (λ k. k ≡ n) }
{
    match u32::try_from(n) {
        Ok(k) => Ok(k),
        Err(_) => Err(NoMemory),
    }
}

/// A sum of numbers of columns. One past 2^64 is of a FROM that no memory holds.
pub fn plus(a: u64, b: u64) -> Result<u64, NoMemory>
    ensures { IfOk result (λ n. n ≡ a + b) }
{
    match a.checked_add(b) {
        Some(n) => Ok(n),
        None => Err(NoMemory),
    }
}
