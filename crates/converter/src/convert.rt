// The converter: what can be converted is, and anything else leaves the second slice as it is.
ghost use Rattle.std.specs.Prelude.{◌≡◌, ◌≤◌, length};
ghost use Rattle.octets.specs.Octets.{write_at};
ghost use Rattle.storage.specs.Sizes.{slots_size, medium_size};
ghost use Rattle.old_places.specs.Old.{old_medium_size, old_log, old_mark};
ghost use Rattle.converter.specs.Convert.{places_of, lengths_of, has_slot, all_renewed, converted, verdict, new_medium, reply_of};

use crate::NotConvertible;
use crc32::Tables;
use old_places::OLD_PLACE;
use storage::sizes::{PLACE, PLACES_LIMIT, SLOT, SLOTS};

// How many places an old medium of so many bytes has room for.
fn places_of(size: usize) -> usize
    ensures { result ≡ places_of size }
{
    size.saturating_sub(SLOTS) / OLD_PLACE
}

// Whether both lengths are those of n places, as many as a medium may have.
fn are_lengths_of(n: usize, before: usize, after: usize) -> bool
    ensures { result ≡ lengths_of n before after }
{
    (1..=PLACES_LIMIT as usize).contains(&n)
        && before == SLOTS + OLD_PLACE * n
        && after == SLOTS + PLACE * n
}

// Whether one of the two slots is valid.
fn has_slot(t: &Tables, m: &[u8]) -> bool
    requires slots_size_in_bounds { slots_size ≤ length m.now }
    ensures { result ≡ has_slot m.now }
{
    slots::valid(t, &m[0..SLOT]) || slots::valid(t, &m[SLOT..SLOTS])
}

// The records of the log, one behind the other; how many they are. What stands behind them is not written.
// An index, since there are two strides beside each other and a way out in the middle: chunks are no plainer.
fn renew_log(t: &Tables, m: &[u8], out: &mut [u8], places: usize) -> usize
    requires m_len { length m.now ≡ old_medium_size places }
    requires out_len { length out.old ≡ medium_size places }
    ensures { (result ≡ old_mark places m.now) × (out.new ≡ write_at slots_size (all_renewed (old_log places m.now)) out.old) }
{
    for n in 0..places {
        let a = SLOTS + OLD_PLACE * n;
        let b = SLOTS + PLACE * n;
        let old = &m[a..a + OLD_PLACE];
        if !old_places::valid(t, old, n as u64 + 1) {
            return n;
        }
        old_places::renew(t, &mut out[b..b + PLACE], old);
    }
    places
}

// The new medium of an old one of so many places: slots, log, zeros.
fn write_new(t: &Tables, m: &[u8], out: &mut [u8], places: usize)
    requires m_len { length m.now ≡ old_medium_size places }
    requires out_len { length out.old ≡ medium_size places }
    ensures { out.new ≡ converted places m.now }
{
    octets::put(out, 0, &m[0..SLOTS]);
    let k = renew_log(t, m, out, places);
    octets::clear(&mut out[SLOTS + PLACE * k..]);
}

// The medium `before`, of the old layout, into `after`.
pub fn convert(before: &[u8], after: &mut [u8]) -> Result<(), NotConvertible>
    ensures { (reply_of result ≡ verdict before.now after.old) × (after.new ≡ new_medium before.now after.old) }
{
    let n = places_of(before.len());
    if !are_lengths_of(n, before.len(), after.len()) {
        return Err(NotConvertible);
    }
    let t = Tables::new();
    if !has_slot(&t, before) {
        return Err(NotConvertible);
    }
    write_new(&t, before, after, n);
    Ok(())
}
