// An offset in the index file.
pub const OFFSET: usize = 8;
