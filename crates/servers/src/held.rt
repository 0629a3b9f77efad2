// The records that a server holds: of which IDs, where each lies, and what one more makes of them.
ghost use Rattle.std.specs.Prelude.{◌≡◌, ◌+◌, ◌*◌, ◌≤◌, length, leb};
ghost use Rattle.storage.specs.Sizes.{place_size, data_limit};
ghost use Rattle.storage.specs.Places.{record_bytes};
ghost use Rattle.cluster.specs.State.{held_in, index_of, held_at, held_after};

use cluster::{HELD, Held, WINDOW};
use crc32::Tables;
use place_writer::encode;
use storage::place::Fields;
use storage::sizes::{PLACE, Place};

// Where the newest lies.
const LAST: usize = HELD - PLACE;

// A mark lies so many or more below the issued one. A mark above it, which can be handed in, does not.
pub fn lags(mark: u64, count: u64, issued: u64) -> bool
    ensures { result ≡ leb (mark + count) issued }
{
    mark <= issued && count <= issued - mark
}

// The record of ID n is held.
pub fn holds(start: u64, issued: u64, n: u64) -> bool
    ensures { result ≡ held_in start issued n }
{
    start < n && n <= issued && !lags(n, WINDOW, issued)
}

// Where the record of ID n lies; the newest is the issued one's. An ID above has the newest's place, one too far below the oldest's.
fn offset_of(issued: u64, n: u64) -> usize
    ensures { result ≡ index_of issued n * place_size }
{
    if issued < n {
        return LAST;
    }
    if lags(n, WINDOW, issued) {
        return 0;
    }
    LAST - (issued - n) as usize * PLACE
}

// The record of ID n, as it is held.
pub fn record_of(held: &Held, issued: u64, n: u64) -> Place
    ensures { result ≡ held_at (index_of issued n) held.now }
{
    let at = offset_of(issued, n);
    let mut out = [0; PLACE];
    out.copy_from_slice(&held[at..at + PLACE]);
    out
}

// One more: each of the others moves to the place before it, and the record of fields and data is the newest.
pub fn appended(t: &Tables, held: Held, fields: Fields, content: &[u8]) -> Held
    requires content_len_bound { length content.now ≤ data_limit }
    ensures { result ≡ held_after held (record_bytes fields content.now) }
{
    let mut next = held;
    next[0..LAST].copy_from_slice(&held[PLACE..HELD]);
    encode(t, &mut next[LAST..HELD], fields, content);
    next
}
