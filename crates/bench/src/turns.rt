// What the jobs do in a turn, beside a call.
ghost use Rattle.std.specs.Prelude.{◌≡◌, length};
ghost use Rattle.storage.specs.Sizes.{medium_size};

use crate::stage::{MEDIA, MEDIUM};
use storage::sizes::{PLACE, SLOTS};

// Where the last of 1,000 places begins.
pub const LAST_PLACE: usize = MEDIUM - PLACE;

// What so many turns come to. Each is told how many are left, itself among them.
pub fn total_of<F: FnMut(u64) -> u64>(count: u64, mut turn: F) -> u64
    requires { F.IsAlwaysCallable turn }
{
    let mut sum: u64 = 0;
    for done in 0..count {
        sum = sum.wrapping_add(turn(count - done));
    }
    sum
}

// The marks of all seven media, each found by the same scan.
pub fn seven_marks<F: Fn(&[u8]) -> usize>(media: &[u8; MEDIA], mark: F) -> u64
    requires { (m : _) → length m.now ≡ medium_size 1000 → F.pre mark m }
{
    let mut sum: u64 = 0;
    for medium in media.chunks_exact(MEDIUM) {
        sum = sum.wrapping_add(mark(medium) as u64);
    }
    sum
}

// The byte that differs from turn to turn.
pub fn byte_of(turn: u64) -> u8 {
    (turn % 256) as u8
}

// The sum of two bytes, none of which can be saved.
pub fn sum_of(a: u8, b: u8) -> u64 {
    a as u64 + b as u64
}

// Every place of a medium is wiped.
pub fn wipe_places(medium: &mut [u8; MEDIUM]) {
    let all = &mut medium[..];
    all[SLOTS..].fill(0);
}
