// Places one behind the other: how many of them are valid, up to the first that is not. Each place is reached from the one before it by a
// sum (README, "Speed"), and no check is made twice.
ghost use Rattle.std.specs.Prelude.{◌≡◌, true, ◌+◌, ◌*◌, ◌≤◌, ◌<◌, ◌^◌, length};
ghost use Rattle.std.specs.Int.Bits.{bit_xor};
ghost use Rattle.lanes.specs.Lanes.{lanes};
ghost use Rattle.storage.specs.Sizes.{place_size};
ghost use Rattle.scan.specs.Rows.{AllFit, Checks, valid_rows};

use crc32::Tables;
use lanes::{LANES, Registers};
use storage::sizes::{CHECK, CLIENT_AT, PLACE, PLACE_CHECKED, WORD};

// As many places as there are lanes.
pub const GROUP: usize = PLACE * LANES;

// The words of a place behind its ID and before its check.
const WORDS: usize = (PLACE_CHECKED - CLIENT_AT) / WORD;

// The valid ones of so many places, of which the first follows place n, one at a time.
pub fn singly(t: &Tables, s: &[u8], n: u64, count: usize) -> usize
    requires count_in_bounds { place_size * count ≤ length s.now }
    requires count_bound { n + count < 2 ^ 64 }
    ensures { result ≡ valid_rows count n s.now }
{
    let mut a = 0;
    for j in 0..count {
        if !place_reader::valid(t, &s[a..a + PLACE], n + j as u64 + 1) {
            return j;
        }
        a += PLACE;
    }
    count
}

// Whether all places of a group are as they have to be in all but the check.
fn all_fit(s: &[u8], n: u64) -> bool
    requires s_len { length s.now ≡ place_size * lanes }
    requires lanes_bound { n + lanes < 2 ^ 64 }
    ensures { result ≡ true → AllFit n s.now }
{
    let mut a = 0;
    for j in 0..LANES {
        if !place_reader::fields_fit(&s[a..a + PLACE], n + j as u64 + 1) {
            return false;
        }
        a += PLACE;
    }
    true
}

// The check that a lane's register comes to.
fn check_of(register: u32) -> u32
    ensures { result ≡ bit_xor register 0xffff_ffff }
{
    register ^ 0xffff_ffff
}

// How many of a group's checks agree with what the lanes come to.
fn agreeing(s: &[u8], n: u64, r: Registers) -> usize
    requires s_len { length s.now ≡ place_size * lanes }
    requires checks { Checks n s.now r }
    ensures { result ≡ valid_rows lanes n s.now }
{
    let mut a = PLACE_CHECKED;
    for j in 0..LANES {
        if check_of(r[j]) as u64 != octets::get_be(&s[a..a + CHECK]) {
            return j;
        }
        a += PLACE;
    }
    LANES
}

// The valid ones of a group, of which the first follows place n: if all else fits, the checks are made side by side; if not, one place at
// a time. The lanes start behind the IDs, which are known by then.
pub fn together(t: &Tables, s: &[u8], n: u64) -> usize
    requires s_len { length s.now ≡ place_size * lanes }
    requires lanes_bound { n + lanes + 1 < 2 ^ 64 }
    ensures { result ≡ valid_rows lanes n s.now }
{
    if !all_fit(s, n) {
        return singly(t, s, n, LANES);
    }
    let behind = lanes::numbers(t, n + 1);
    agreeing(s, n, lanes::words(t, s, CLIENT_AT, PLACE, WORDS, behind))
}
