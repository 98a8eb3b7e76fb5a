ghost use Rattle.std.specs.Prelude.{◌≡◌};
ghost use Rattle.cq_top.specs.Serving.{at_first};

use cq_script::{Cutter, Reader};
use std::alloc::Global;

/// How far a script is read: where it is cut, and what was read of its pieces.
#[derive(Drop)]
pub struct Script {
    pub cutter: Cutter,
    pub reader: Reader,
}

impl Script {
    /// At the front of a script.
    pub fn new(alloc: Global) -> Script
        ensures { result ≡ at_first }
    {
        Script {
            cutter: Cutter::new(alloc),
            reader: Reader::new(),
        }
    }
}
