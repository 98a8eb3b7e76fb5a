ghost use Rattle.std.specs.Prelude.{◌≡◌};
ghost use Rattle.cq_planning.specs.Relations.{is_right, is_distributed, is_plain, distribution_of, or_column_0, is_between};

use cq_value::Items;
use std::marker::Model;

/// A distribution column, by its number in the FROM, and its co-location group.
#[derive(Clone, Copy, Debug)]
pub struct Distribution {
    pub column: u64,
    pub colocation: u32,
}

impl Model for Distribution {
    ghost use Rattle.cq_planning.specs.Relations as rules;
    ghost use Rattle.cq_relations.specs.Codes.{distribution_code};

    ghost Value = { rules.Distribution };

    ghost coded = { distribution_code };

    ghost view = { λ d. record { column = d.column; colocation = d.colocation } };

    ghost inverse = { λ d. record { column = d.column; colocation = d.colocation } };
}

/// The LEFT JOIN of which a relation is the right side: the first column of the left side, and the equalities of its ON.
#[derive(Debug, Drop)]
pub struct OuterJoin {
    pub left: u64,
    pub equalities: Items<(u32, u32)>,
}

impl Model for OuterJoin {
    ghost use Rattle.cq_planning.specs.Relations as rules;
    ghost use Rattle.cq_relations.specs.Codes.{join_code};

    ghost Value = { rules.OuterJoin };

    ghost coded = { join_code };

    ghost view = { λ o. record { left = o.left; equalities = o.equalities } };
}

/// A relation of a FROM: its first column; its distribution column, where it is a distributed table or a pushable subquery; and its
/// LEFT JOIN, where it is a right side.
#[derive(Debug, Drop)]
pub struct Relation {
    pub start: u64,
    pub distribution: Option<Distribution>,
    pub outer: Option<OuterJoin>,
}

impl Model for Relation {
    ghost use Rattle.cq_planning.specs.Relations as rules;
    ghost use Rattle.cq_relations.specs.Codes.{relation_code};

    ghost Value = { rules.Relation };

    ghost coded = { relation_code };

    ghost view = { λ r. record { start = r.start; distribution = r.distribution; outer = r.outer } };
}

impl Relation {
    pub fn is_distributed(&self) -> bool
        ensures { result ≡ is_distributed self.now }
    {
        self.distribution.is_some()
    }

    /// Whether it is the right side of a LEFT JOIN.
    pub fn is_right(&self) -> bool
        ensures { result ≡ is_right self.now }
    {
        self.outer.is_some()
    }

    /// Whether it is distributed and isn't the right side of a LEFT JOIN.
    pub fn is_plain(&self) -> bool
        ensures { result ≡ is_plain self.now }
    {
        self.is_distributed() && !self.is_right()
    }

    /// Its distribution column, where it is distributed.
    pub fn distribution(&self) -> Distribution
        ensures { result ≡ distribution_of self.now }
    {
        match self.distribution {
            Some(distribution) => distribution,
            None => Distribution {
                column: 0,
                colocation: 0,
            },
        }
    }
}

/// Whether a column is from `low` on and before `high`.
pub fn is_between(low: u64, high: u64, column: u64) -> bool
    ensures { result ≡ is_between low high column }
{
    low <= column && column < high
}

/// How a subquery can be pushed down: its distribution column among its outputs, the column of its own FROM that this is, and its
/// co-location group.
#[derive(Clone, Copy, Debug)]
pub struct Pushable {
    pub output: u64,
    pub column: u32,
    pub colocation: u32,
}

impl Model for Pushable {
    ghost use Rattle.cq_planning.specs.Pushable as rules;
    ghost use Rattle.cq_relations.specs.Codes.{pushable_code};

    ghost Value = { rules.Pushable };

    ghost coded = { pushable_code };

    ghost view = { λ p. record { output = p.output; column = p.column; colocation = p.colocation } };

    ghost inverse = { λ p. record { output = p.output; column = p.column; colocation = p.colocation } };
}
