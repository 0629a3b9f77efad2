#![tactic(auto)]

pub mod operation;
pub mod place;
pub mod sizes;
pub mod slot;
