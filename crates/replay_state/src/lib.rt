// What the replaying program holds between two lines, the lines that hand it in, and its check sums.
#![tactic(auto)]

pub mod fields;
pub mod lines;
pub mod state;
pub mod sums;
