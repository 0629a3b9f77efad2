// read: a place of a member. What a server hears of a message that reads serves export too.
#![tactic(auto)]

pub mod read;
