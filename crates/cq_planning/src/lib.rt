//! Which shard groups a statement touches: what its conditions say of columns, the values that a distribution column can have, which
//! subqueries can be pushed down, and the groups of each occurrence of a table. Definitions alone; the laws on them are in
//! cq_planning_laws.
#![tactic(auto)]
