// A replica's operations on its medium, as values, and what it reads before it acts. The crate `medium` performs them.
use crate::slot::{Current, Slot};

// What prepare leaves of a log: the whole of it, the places up to a mark, or those up to the replica's own low-water mark.
#[derive(Clone, Copy)]
pub enum Target {
    Whole,
    Mark(u64),
    LowWater,
}

// A replica's operations. Prepare: the session that it promises, and what it truncates to; Trim: the mark that it truncates to; Note: the
// low-water marks; Append: the mark behind which a record is written, whose bytes lie beside it.
#[derive(Clone, Copy)]
pub enum Operation {
    Prepare(u64, Target),
    Trim(u64),
    Note(u64, u64),
    Append(u64),
}

// What a replica reads of its medium before it acts: its places, its current slot, what that holds, and its mark.
#[derive(Clone, Copy)]
pub struct Read {
    pub places: usize,
    pub current: Current,
    pub slot: Slot,
    pub mark: usize,
}
