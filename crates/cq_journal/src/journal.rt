use cq_tree::Entries;
use cq_value::Reserved;

/// The history of one shard group from the start of the run. `opening` is the node on which it was opened, 0 for a
/// reference group, which is on every node.
#[derive(Debug, Drop)]
pub struct Journal {
    pub group: u32,
    pub opening: u32,
    pub entries: Entries,
}

/// The journals of the shard groups, in order of group.
pub type Journals = Reserved<Journal>;
