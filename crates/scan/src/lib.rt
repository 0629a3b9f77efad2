// How far a medium's log reaches: the scan for its mark.
#![tactic(auto)]

pub mod groups;

ghost use Rattle.std.specs.Prelude.{◌≡◌, ◌≤◌, length};
ghost use Rattle.storage.specs.Sizes.{medium_size};
ghost use Rattle.storage.specs.Log.{mark_of};

use crate::groups::GROUP;
use crc32::Tables;
use lanes::LANES;
use storage::sizes::{PLACE, SLOTS};

// The mark of a log whose first places are known to be valid: whole groups first, then what is left. The loop stays a while: the next group has
// to be reached by a sum, not by a product (README, "Speed"), and it steps by groups and offsets, not by an index.
pub fn mark_from(t: &Tables, m: &[u8], places: usize, known: usize) -> usize
    requires m_len { length m.now ≡ medium_size places }
    requires known_bound { known ≤ mark_of places m.now }
    ensures { result ≡ mark_of places m.now }
{
    let mut n = known;
    let mut a = SLOTS + PLACE * known;
    while LANES <= places - n {
        let e = a + GROUP;
        let k = groups::together(t, &m[a..e], n as u64);
        if k < LANES {
            return n + k;
        }
        n += LANES;
        a = e;
    }
    n + groups::singly(t, &m[a..], n as u64, places - n)
}

// The highest ID of the log, 0 where it is empty.
pub fn mark(t: &Tables, m: &[u8], places: usize) -> usize
    requires m_len { length m.now ≡ medium_size places }
    ensures { result ≡ mark_of places m.now }
{
    mark_from(t, m, places, 0)
}
