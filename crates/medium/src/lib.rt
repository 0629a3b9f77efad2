#![tactic(auto)]

pub mod operation;
