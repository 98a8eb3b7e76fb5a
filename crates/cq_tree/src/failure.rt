/// A store that failed in a call: the one of this shard on this node, whose count of faults rose from `before` to `after`.
#[derive(Clone, Copy, Debug, PartialEq, Eq)]
pub struct StoreFailure {
    pub node: u32,
    pub shard: u64,
    pub before: u64,
    pub after: u64,
}
