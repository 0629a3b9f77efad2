// What is held between two lines; media, lock tables and the bytes for a restore lie beside it.
use cluster::{Records, Shape};
use storage::sizes::{PLACE, Place};

// The most locks of a request.
pub const LOCKS: usize = 8;

// The lengths at which media, lock tables and the bytes for a restore are lent.
#[derive(Clone, Copy, PartialEq, Eq)]
pub struct Lengths {
    pub media: usize,
    pub tables: usize,
    pub backup: usize,
}

// Data and locks have their lengths beside them: there is no heap for a `Vec`.
#[derive(Clone, Copy)]
pub struct State {
    pub records: Records,
    pub shape: Shape,
    pub lent: Lengths,
    // The bytes that a torn write leaves.
    pub given: Place,
    // Of a request.
    pub data: Place,
    pub size: usize,
    pub locks: [u64; LOCKS],
    pub count: usize,
}

impl State {
    // These records, and zeros beside them.
    pub fn new(records: Records) -> State {
        State {
            records,
            shape: Shape {
                replicas: 0,
                places: 0,
                interval: 0,
            },
            lent: Lengths {
                media: 0,
                tables: 0,
                backup: 0,
            },
            given: [0; PLACE],
            data: [0; PLACE],
            size: 0,
            locks: [0; LOCKS],
            count: 0,
        }
    }

    // As many of the data as there are.
    pub fn data(&self) -> &[u8] {
        let n = self.size.min(PLACE);
        &self.data[..n]
    }

    // As many of the locks as there are.
    pub fn locks(&self) -> &[u64] {
        let n = self.count.min(LOCKS);
        &self.locks[..n]
    }
}
