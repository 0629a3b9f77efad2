// All that a line can change: media, lock tables, the bytes for a restore, and the state beside them.
use replay_state::state::State;

// Bytes for media and marks for lock tables, some more than any cluster here has: a call can be lent too much.
pub const MEDIA: usize = 8008;

pub const TABLES: usize = 4100;

// Bytes for a restore: a medium of 15 places.
pub const BACKUP: usize = 1144;

// The lengths that are lent are part of the state, as there is no heap for a `Vec`.
#[derive(Clone, Copy)]
pub struct Memory {
    pub media: [u8; MEDIA],
    pub tables: [u64; TABLES],
    pub backup: [u8; BACKUP],
    pub state: State,
}

impl Memory {
    pub fn new() -> Memory {
        Memory {
            media: [0; MEDIA],
            tables: [0; TABLES],
            backup: [0; BACKUP],
            state: State::new(fresh::records()),
        }
    }

    // What of the media is lent.
    pub fn media(&self) -> &[u8] {
        let n = self.state.lent.media.min(MEDIA);
        &self.media[..n]
    }

    // What of the lock tables is lent.
    pub fn tables(&self) -> &[u64] {
        let n = self.state.lent.tables.min(TABLES);
        &self.tables[..n]
    }
}
