// A medium's places: read, written and wiped.
#![tactic(auto)]

ghost use Rattle.std.specs.Prelude.{◌≡◌, ◌+◌, ◌-◌, ◌≤◌, ◌<◌, ◌^◌, length};
ghost use Rattle.fate.specs.Fates.{leave};
ghost use Rattle.fate.specs.Numbered.{effect_of, after_from};
ghost use Rattle.storage.specs.Sizes.{medium_size};
ghost use Rattle.storage.specs.Places.{wiped};
ghost use Rattle.storage.specs.Log.{place_at};
ghost use Rattle.storage.specs.Operations.{place_write, wipes};

use fate::Fate;
use storage::sizes::{PLACE, Place, SLOTS};

// The bytes of place n.
pub fn read_place(m: &[u8], n: u64) -> Place
    requires { (1 ≤ n) × (medium_size n ≤ length m.now) }
    ensures { result ≡ place_at n m.now }
{
    let at = SLOTS + PLACE * (n as usize - 1);
    let mut out = [0; PLACE];
    out.copy_from_slice(&m[at..at + PLACE]);
    out
}

// Write k puts bytes in place n. The given bytes and the fate stay apart, here and below: `fate::store` is public and takes them so, and a call holds its
// fate while the bytes lie beside.
pub fn set_place(m: &mut [u8], n: usize, src: &Place, given: &Place, f: Fate, k: u64)
    requires le_n { (1 ≤ n) × (medium_size n ≤ length m.old) }
    ensures { m.new ≡ leave (effect_of f k) given.now (place_write n src.now) m.old }
{
    let at = SLOTS + PLACE * (n - 1);
    fate::store(m, at, src, given, f, k);
}

// Write k wipes place n.
fn wipe(m: &mut [u8], n: usize, given: &Place, f: Fate, k: u64)
    requires le_n { (1 ≤ n) × (medium_size n ≤ length m.old) }
    ensures { m.new ≡ leave (effect_of f k) given.now (place_write n wiped) m.old }
{
    set_place(m, n, &[0; PLACE], given, f, k);
}

// The places above `to`, up to `from`, are wiped from the highest down: writes from k on. By index: the write's number goes up as the
// place goes down.
pub fn truncate(m: &mut [u8], from: usize, to: usize, given: &Place, f: Fate, k: u64)
    requires from_in_bounds { medium_size from ≤ length m.old }
    requires from_bound { k + from < 2 ^ 64 }
    ensures { m.new ≡ after_from k f given.now (wipes to (from - to)) m.old }
{
    for j in 0..from.saturating_sub(to) {
        wipe(m, from - j, given, f, k + j as u64);
    }
}
