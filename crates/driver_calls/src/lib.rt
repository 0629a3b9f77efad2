// The calls of a recovery, one by one: each with the fate that is next and the bytes beside it, and counted.
#![tactic(auto)]

pub mod fates;
pub mod steps;
