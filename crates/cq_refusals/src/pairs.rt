ghost use Rattle.std.specs.Prelude.{◌≡◌, ◌++◌, ◌-◌, IfOk, OnOk, map};
ghost use Rattle.cq_planning.specs.Joins.{next_start as next_start_by_rule, own_pairs, pairs_of_each};
ghost use Rattle.cq_planning.specs.Touched.{numbers};

use cq_relations::Relation;
use cq_value::{Items, NoMemory, small};

/// Two columns each.
pub type Pairs = Items<(u32, u32)>;

/// Puts a column last with each of those from `start` on and before `end`.
#[tactic(auto, using(crate::proofs::NumberLaws::one_put, crate::proofs::NumberLaws::all_put))]
fn put_columns(pairs: &mut Pairs, column: u32, start: u32, end: u32) -> Result<(), NoMemory>
    ensures { OnOk result (pairs.new ≡ pairs.old ++ map (λ x. (column, x)) (numbers start (end - start))) }
{
    for other in start..end {
        pairs.put((column, other))?;
    }
    Ok(())
}

/// Puts the distribution column of a relation last with each of its columns, of which the last stands before `end`, where the relation is in a
/// component.
fn put_own(pairs: &mut Pairs, relation: &Relation, end: u64) -> Result<(), NoMemory>
    ensures { OnOk result (pairs.new ≡ pairs.old ++ own_pairs relation.now end) }
{
    if relation.is_plain() {
        let column = small(relation.distribution().column)?;
        put_columns(pairs, column, small(relation.start)?, small(end)?)
    } else {
        Ok(())
    }
}

/// Where the next relation begins, or the FROM ends.
fn next_start(relations: &[Relation], width: u64) -> u64
    ensures { result ≡ next_start_by_rule width relations.now }
{
    match relations {
        [next, ..] => next.start,
        [] => width,
    }
}

/// Puts those of each relation last.
pub fn put_pairs_of_each(
    pairs: &mut Pairs,
    relations: &[Relation],
    width: u64,
) -> Result<(), NoMemory>
    ensures { OnOk result (pairs.new ≡ pairs.old ++ pairs_of_each width relations.now) }
{
    match relations {
        [] => Ok(()),
        [relation, rest @ ..] => {
            put_own(pairs, relation, next_start(rest, width))?;
            put_pairs_of_each(pairs, rest, width)
        }
    }
}
