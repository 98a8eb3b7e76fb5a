//! Binary digits.

ghost use Rattle.std.specs.Prelude.{◌≡◌, ◌≤◌, ◌+◌, ◌/◌};
ghost use Rattle.cq_grammar.specs.Grammar as grammar;

/// The number of binary digits, 0 for 0.
pub fn digits(n: usize) -> usize
    ensures value { result ≡ grammar.digits n }
    ensures few { result ≤ n / 2 + 1 }
{
    if n == 0 { 0 } else { digits(n / 2) + 1 }
}
