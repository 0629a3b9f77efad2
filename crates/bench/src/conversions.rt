// A conversion of 1,000 old places with 28 bytes of data each. The old medium is made from a new one, place by place.
ghost use Rattle.std.specs.Prelude.{◌≡◌, length};
ghost use Rattle.bench.specs.Sizes.{old_medium};

use crate::stage::{MEDIUM, Stage};
use crate::turns;
use crate::turns::total_of;
use crc32::Tables;
use old_places::OLD_PLACE;
use storage::sizes::{CHECK, LONG, PLACE, SEQUENCE_AT, SLOTS, WORD};

// An old medium of 1,000 places.
const OLD_MEDIUM: usize = SLOTS + 1000 * OLD_PLACE;

// An old place before its check is the bytes before the sequence and those from its lower half on, without the zeros.
const CHECKED: usize = OLD_PLACE - CHECK;

const LOWER_AT: usize = SEQUENCE_AT + WORD;

const END: usize = LOWER_AT + CHECKED - SEQUENCE_AT;

// The lowest byte of the ID in place 1,000.
const ID_BYTE: usize = SLOTS + 999 * PLACE + LONG - 1;

// An old place from a new one, with its own check.
fn put_old(t: &Tables, out: &mut [u8], p: &[u8]) {
    if out.len() != OLD_PLACE {
        return;
    }
    if p.len() != PLACE {
        return;
    }
    out[..SEQUENCE_AT].copy_from_slice(&p[..SEQUENCE_AT]);
    out[SEQUENCE_AT..CHECKED].copy_from_slice(&p[LOWER_AT..END]);
    crc32::seal(t, out, CHECKED);
}

// The old medium of the first new one.
fn make_old(out: &mut [u8; OLD_MEDIUM], stage: &Stage)
    requires { length out.old ≡ old_medium }
{
    let t = Tables::new();
    let out = &mut out[..];
    out[..SLOTS].copy_from_slice(&stage.media[..SLOTS]);
    let places = stage.media[SLOTS..MEDIUM].chunks_exact(PLACE);
    for (old, new) in out[SLOTS..].chunks_exact_mut(OLD_PLACE).zip(places) {
        put_old(&t, old, new);
    }
}

// A byte of a slot differs from turn to turn; the other slot is the current one.
fn convert(before: &mut [u8; OLD_MEDIUM], after: &mut [u8; MEDIUM], turn: u64) -> u64 {
    before[0] = turns::byte_of(turn);
    let Ok(()) = converter::convert::convert(before, after) else {
        return 0;
    };
    turns::sum_of(after[0], after[ID_BYTE])
}

// What so many conversions come to.
pub fn total(stage: &mut Stage, count: u64) -> u64 {
    let mut before = [0u8; OLD_MEDIUM];
    let mut after = [0u8; MEDIUM];
    stage.fill(1000);
    make_old(&mut before, stage);
    total_of(count, |turn| convert(&mut before, &mut after, turn))
}
