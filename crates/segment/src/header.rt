// The header of both files.
ghost use Rattle.std.specs.Prelude.{◌≡◌, length};
ghost use Rattle.segment.specs.Header.{header_size, header_bytes};

use storage::sizes::{LONG, WORD};

// The widths that are not those of numbers, and what export writes.
pub const KEY: usize = 16;

pub const RESERVED: usize = 88;

pub const VERSION: u64 = 2;

pub const FIRST_ID: u64 = 1;

// Each field behind the one before.
pub const VERSION_AT: usize = 0;

pub const TIME_AT: usize = VERSION_AT + WORD;

pub const KEY_AT: usize = TIME_AT + LONG;

pub const PARTITION_AT: usize = KEY_AT + KEY;

pub const FIRST_AT: usize = PARTITION_AT + WORD;

pub const RESERVED_AT: usize = FIRST_AT + LONG;

pub const HEADER: usize = RESERVED_AT + RESERVED;

// What is handed in for a header: the creation time and the cluster key.
#[derive(Clone, Copy)]
pub struct Stamp {
    pub time: u64,
    pub key: [u8; KEY],
}

// The header's bytes.
pub fn write_header(out: &mut [u8], z: Stamp)
    requires { length out.old ≡ header_size }
    ensures { out.new ≡ header_bytes z }
{
    let key = z.key;
    octets::put_be(out, VERSION_AT, WORD, VERSION);
    octets::put_be(out, TIME_AT, LONG, z.time);
    octets::put(out, KEY_AT, &key);
    octets::put_be(out, PARTITION_AT, WORD, 0);
    octets::put_be(out, FIRST_AT, LONG, FIRST_ID);
    octets::clear(&mut out[RESERVED_AT..HEADER]);
}
