// A replica's four operations on its medium, each under a fate. What the replica has read before (its current slot, what that holds, its
// mark) comes in as arguments, so that nothing is searched for twice.
#![tactic(auto)]

ghost use Rattle.std.specs.Prelude.{◌≡◌, ◌+◌, ◌≤◌, ◌<◌, length};
ghost use Rattle.fate.specs.Fates.{after, leave};
ghost use Rattle.fate.specs.Numbered.{effect_of, after_from};
ghost use Rattle.storage.specs.Sizes.{medium_size, slots_size};
ghost use Rattle.storage.specs.Operations.{slot_write, promising, closing, prepare_writes, trim_writes, append_writes, note_writes};
ghost use Rattle.storage.specs.AsRead.{AsRead};

use crc32::Tables;
use fate::Fate;
use medium_places::{set_place, truncate};
use storage::operation::{Read, Target};
use storage::sizes::{Place, SLOT};
use storage::slot::{Current, Slot};

// Write k puts a slot over the one that is not current.
fn set_slot(t: &Tables, m: &mut [u8], c: Current, x: Slot, given: &Place, f: Fate, k: u64)
    requires { slots_size ≤ length m.old }
    ensures { m.new ≡ leave (effect_of f k) given.now (slot_write c x) m.old }
{
    let mut bytes = [0; SLOT];
    slots::encode(t, &mut bytes, x);
    fate::store(m, slots::other(c), &bytes, given, f, k);
}

// A slot with the new promise, unless that is the old one. The result is the number of the next write.
fn renew(t: &Tables, m: &mut [u8], c: Current, x: Slot, session: u64, given: &Place, f: Fate) -> u64
    requires slots_size_in_bounds { slots_size ≤ length m.old }
    ensures { (result ≡ 1 + length (promising c x session)) × (m.new ≡ after_from 1 f given.now (promising c x session) m.old) }
{
    if x.promise == session {
        return 1;
    }
    let next = Slot {
        promise: session,
        ..x
    };
    set_slot(t, m, c, next, given, f, 1);
    2
}

// A log with mark n is truncated to the closing mark or to the low-water mark, if either is asked for: writes from k on.
#[tactic(auto, using(fate::proofs::Laws::from_none), unfolding(storage::specs::Operations::closing))]
fn close(m: &mut [u8], n: usize, low: u64, to: Target, given: &Place, f: Fate, k: u64)
    requires n_in_bounds { medium_size n ≤ length m.old }
    requires k_bound { k ≤ 2 }
    ensures { m.new ≡ after_from k f given.now (closing n low to) m.old }
{
    match to {
        Target::Whole => {}
        Target::Mark(t) => truncate(m, n, t as usize, given, f, k),
        Target::LowWater => truncate(m, n, low as usize, given, f, k),
    }
}

// prepare: the promise of a session, then truncation, also where the promise is the old one.
pub fn prepare(
    t: &Tables,
    m: &mut [u8],
    read: Read,
    session: u64,
    to: Target,
    given: &Place,
    f: Fate,
)
    requires as_read { AsRead read m.old }
    ensures { m.new ≡ after f given.now (prepare_writes read.places session to m.old) m.old }
{
    let k = renew(t, m, read.current, read.slot, session, given, f);
    close(m, read.mark, read.slot.low, to, given, f, k);
}

// trim: truncation to a mark.
#[tactic(auto, using(storage::proofs::Writing::trimmed, storage::proofs::Scan::mark_le))]
pub fn trim(m: &mut [u8], read: Read, to: u64, given: &Place, f: Fate)
    requires as_read { AsRead read m.old }
    ensures { m.new ≡ after f given.now (trim_writes read.places to m.old) m.old }
{
    truncate(m, read.mark, to as usize, given, f, 1);
}

// send and copy: a record in the place behind mark n.
#[tactic(auto, using(storage::proofs::Writing::appended))]
pub fn append(m: &mut [u8], read: Read, n: u64, src: &Place, given: &Place, f: Fate)
    requires as_read { AsRead read m.old }
    requires n_lt_places { n < read.places }
    ensures { m.new ≡ after f given.now (append_writes n src.now) m.old }
{
    set_place(m, n as usize + 1, src, given, f, 1);
}

// note: a slot with the promise kept and these low-water marks.
pub fn note(t: &Tables, m: &mut [u8], read: Read, low: u64, local: u64, given: &Place, f: Fate)
    requires as_read { AsRead read m.old }
    ensures { m.new ≡ after f given.now (note_writes low local m.old) m.old }
{
    let next = Slot {
        low,
        local,
        ..read.slot
    };
    set_slot(t, m, read.current, next, given, f, 1);
}
