// The answer to a line of the script program, and the cluster after it.
#![tactic(auto)]

pub mod answer;
pub mod blank;
