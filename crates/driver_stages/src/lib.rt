// The stages of a recovery between its take and its open: the prepares, then the copies. Media and tables stay beside `asked`: they are lent anew to each
// call, mutably or not.
#![tactic(auto)]

pub mod copies;
pub mod prepares;
