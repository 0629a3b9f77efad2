// The text of a line: its fields and numbers in base ten, each read and written.
#![tactic(auto)]

pub mod line;
pub mod number;
