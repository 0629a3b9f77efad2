// Lines of the script program: what a line asks for.
#![tactic(auto)]

pub mod forms;
mod values;
