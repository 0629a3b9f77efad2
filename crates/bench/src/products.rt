// The scan for a mark with a product in its loop: where a group begins is found from the number of places before it, whereas `scan::mark`
// adds a group's size to where the last one began. It stands here alone, to be timed beside that one.
ghost use Rattle.std.specs.Prelude.{◌≡◌, length};
ghost use Rattle.storage.specs.Sizes.{medium_size};
ghost use Rattle.storage.specs.Log.{mark_of};

use crc32::Tables;
use lanes::LANES;
use scan::groups;
use scan::groups::GROUP;
use storage::sizes::{PLACE, SLOTS};

// The loop stays a while: it steps by groups, and the product by which each is reached is what is timed (README, "Speed").
pub fn mark(t: &Tables, m: &[u8], places: usize) -> usize
    requires m_len { length m.now ≡ medium_size places }
    ensures { result ≡ mark_of places m.now }
{
    let mut n = 0;
    while LANES <= places - n {
        let a = SLOTS + PLACE * n;
        let e = a + GROUP;
        let k = groups::together(t, &m[a..e], n as u64);
        if k < LANES {
            return n + k;
        }
        n += LANES;
    }
    let a = SLOTS + PLACE * n;
    n + groups::singly(t, &m[a..], n as u64, places - n)
}
