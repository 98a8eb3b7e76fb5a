use cq_tree::Steps;
use cq_value::Positions;

/// What the steps of a repartition have joined: the columns of its components, a column of the class by which the rows are parted, into how many
/// ranges or buckets they are, and the steps. Where nothing is repartitioned, only the class counts.
#[derive(Debug, Drop)]
pub struct Joined {
    pub columns: Positions,
    pub class: u64,
    pub count: u32,
    pub steps: Steps,
}
