// What a driver looks for in its list of replicas: why a recovery is declined itself, and after the prepares the highest mark of
// those that vote and who has it.
#![tactic(auto)]

pub mod admit;
pub mod listed;
pub mod marks;
