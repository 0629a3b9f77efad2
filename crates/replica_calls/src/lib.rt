// The calls that send a message to a replica: prepare, trim, note, send and copy. Each is admitted, checked before its message,
// and has a replica do an operation, whose answer the server hears.
#![tactic(auto)]

pub mod calls;
pub mod copy;
