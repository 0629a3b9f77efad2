// export: a member's log, as a segment in two lent files.
#![tactic(auto)]

pub mod export;
