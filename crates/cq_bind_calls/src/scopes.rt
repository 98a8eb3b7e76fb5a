ghost use Rattle.std.specs.Prelude.{◌≡◌};
ghost use Rattle.cq_reading.specs.Scopes as scopes;
ghost use Rattle.cq_reading.specs.Rules as rule;

use cq_reading::{Found, Scope};
use cq_value::Items;
use std::alloc::Global;

/// The allocator of the world that a scope is in.
pub fn alloc_of(scope: &Scope<'_>) -> Global {
    let world = scope.world;
    world.alloc
}

/// The same scope before any grouping.
pub fn plain<'a>(scope: &Scope<'a>) -> Scope<'a>
    ensures { result ≡ scopes.plain scope.now }
{
    Scope {
        world: scope.world,
        first: scope.first,
        columns: scope.columns,
        grouped: false,
        keys: scope.keys,
        joined: scope.joined,
        may_aggregate: false,
        may_select: scope.may_select,
    }
}

/// Where nothing is found yet.
pub fn nothing(alloc: Global) -> Found
    ensures { result ≡ rule.nothing }
{
    Found {
        results: 0,
        blocks: 0,
        subs: Items::new(alloc),
        aggs: Items::new(alloc),
    }
}
