// Import: a pair of segment files read into a medium that is in no cluster. The whole pair is judged before the first byte is written.
#![tactic(auto)]

pub mod fill;
pub mod import;
pub mod place;
