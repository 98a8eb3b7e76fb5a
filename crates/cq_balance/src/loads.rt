ghost use Rattle.std.specs.Prelude.{◌≡◌, ◌≤◌, ◌^◌, filter, fold, None, length};
ghost use Rattle.std.specs.List.{sum_by};
ghost use Rattle.cq_balance.specs.Greedy.{load_of as load_there, fullest as fullest_of, emptiest as emptiest_of, chosen as chosen_of};

use crate::load::Load;

/// The sum of the sizes on a node.
pub(crate) fn load_of(loads: &[Load], node: u32) -> u128
    requires { sum_by (λ l. l.size) loads.now ≤ 2 ^ 100 }
    ensures same { result ≡ load_there loads.now node }
    ensures low { result ≤ 2 ^ 100 }
{
    let mut sum = 0;
    for load in loads {
        if load.node == node {
            sum += load.size;
        }
    }
    sum
}

/// Of the nodes from 1 on the one of greatest load, and of these the lowest.
pub(crate) fn fullest(loads: &[Load], nodes: u32) -> u32
    requires { sum_by (λ l. l.size) loads.now ≤ 2 ^ 100 }
    ensures { result ≡ fullest_of loads.now nodes }
{
    let mut best = 1;
    for n in 0..nodes {
        if load_of(loads, best) < load_of(loads, n + 1) {
            best = n + 1;
        }
    }
    best
}

/// Of the nodes from 1 on the one of least load, and of these the lowest.
pub(crate) fn emptiest(loads: &[Load], nodes: u32) -> u32
    requires { sum_by (λ l. l.size) loads.now ≤ 2 ^ 100 }
    ensures { result ≡ emptiest_of loads.now nodes }
{
    let mut best = 1;
    for n in 0..nodes {
        if load_of(loads, n + 1) < load_of(loads, best) {
            best = n + 1;
        }
    }
    best
}
