ghost use Rattle.std.specs.Prelude.{◌≡◌, ◌+◌, [], replicate, IfOk};

use cq_value::{NoMemory, Results, Rows};
use std::alloc::Global;
use std::marker::Model;

/// How many results have a number. Each has its place, without rows yet, so a number is a place in memory and can't be too large.
/// Contracts see the count.
#[derive(Drop)]
pub struct Numbers {
    alloc: Global,
    results: Results,
}

impl Model for Numbers {
    ghost use Rattle.std.specs.Prelude.{ℕ, [], ◌≡◌, length, replicate};

    ghost Value = { ℕ };

    ghost view = { λ n. length n.results };

    ghost invariant = { λ n. n.results ≡ replicate (length n.results) [] };
}

impl Numbers {
    /// No number is given yet.
    pub fn new(alloc: Global) -> Numbers
        ensures { result ≡ 0 }
    {
        Numbers {
            alloc,
            results: Results::new(alloc),
        }
    }

    /// The next number.
    pub fn take(&mut self) -> Result<u64, NoMemory>
        ensures { IfOk result (λ number. (number ≡ self.old) × (self.new ≡ self.old + 1)) }
    {
        let number = self.results.len();
        self.results.put(Rows::new(self.alloc))?;
        Ok(number)
    }

    /// The results, none of which has rows.
    pub fn into_results(self) -> Results
        ensures { result ≡ replicate self [] }
    {
        let Numbers { alloc: _, results } = self;
        results
    }
}
