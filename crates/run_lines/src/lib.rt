// What the lines of the stored runs share: bytes as digits, fates, the pieces of an answer.
#![tactic(auto)]

pub mod digits;
pub mod fates;
pub mod print;
