// The two slots of a medium, as values. The crate `slots` reads and writes their bytes.

// What a slot holds: the promised session, the low-water mark and the local low-water mark.
#[derive(Clone, Copy)]
pub struct Slot {
    pub promise: u64,
    pub low: u64,
    pub local: u64,
}

// Which of the two slots is current. Three states, which `current_of` of specs/Slots and the theorems name: no Option of two.
#[derive(Clone, Copy)]
pub enum Current {
    First,
    Second,
    Neither,
}
