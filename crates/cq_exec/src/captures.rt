use cq_queries::Tables;
use cq_tasks::Parts;
use cq_value::Positions;

/// What was read of the shard groups that a statement touches.
#[derive(Drop)]
pub struct Captures {
    /// The groups of distributed tables that were read, each once.
    pub groups: Positions,
    /// What was read of each of them, in this order.
    pub parts: Parts,
    /// What was read of reference tables.
    pub beside: Tables,
}
