// A medium is read, a replica's operation is performed on it, and what is known of its mark then. What was read before comes in as an argument, so
// that nothing is searched for twice. It lies beside the medium and not in one struct with it: no type could hold that it is what the medium holds,
// since the first write ends that, and `mark_after` goes by it still.
ghost use Rattle.std.specs.Prelude.{◌≡◌, length};
ghost use Rattle.fate.specs.Fates.{after};
ghost use Rattle.storage.specs.Sizes.{medium_size};
ghost use Rattle.storage.specs.Log.{mark_of};
ghost use Rattle.storage.specs.Operations.{closed_mark, writes_of, HasPlace, MarkKnown};
ghost use Rattle.storage.specs.AsRead.{AsRead};
ghost use Rattle.storage.specs.Given.{passes};

use crc32::Tables;
use fate::Fate;
use operations::{append, note, prepare, trim};
use storage::operation::{Operation, Read, Target};
use storage::sizes::{CLIENT_AT, ID_AT, Place, SLOT};

// Reads a medium: the two slots, then the places up to the mark and at most four behind it; no place's check is made twice.
pub fn read_medium(t: &Tables, m: &[u8], places: usize) -> Read
    requires m_len { length m.now ≡ medium_size places }
    ensures { (result.places ≡ places) × AsRead result m.now }
{
    let current = slots::choose(t, m);
    Read {
        places,
        current,
        slot: slots::held(current, m),
        mark: scan::mark(t, m, places),
    }
}

// An operation on a medium that was read; src are the bytes that lie beside an append.
pub fn perform(
    t: &Tables,
    m: &mut [u8],
    read: Read,
    op: Operation,
    src: &Place,
    given: &Place,
    f: Fate,
)
    requires as_read { AsRead read m.old }
    requires has_place { HasPlace read.places op }
    ensures { m.new ≡ after f given.now (writes_of read.places src.now op m.old) m.old }
{
    match op {
        Operation::Prepare(session, to) => prepare(t, m, read, session, to, given, f),
        Operation::Trim(to) => trim(m, read, to, given, f),
        Operation::Note(low, local) => note(t, m, read, low, local, given, f),
        Operation::Append(n) => append(m, read, n, src, given, f),
    }
}

// The mark that a prepare leaves of a log with mark n.
fn closed_mark(low: u64, to: Target, n: u64) -> u64
    ensures { result ≡ closed_mark low to n }
{
    match to {
        Target::Whole => n,
        Target::Mark(t) => t.min(n),
        Target::LowWater => low.min(n),
    }
}

// The mark of a medium after an operation, by what was read before it: only behind an append are places read again, from the one behind the old mark on.
pub fn mark_after(t: &Tables, m: &[u8], read: Read, op: Operation) -> u64
    requires m_len { length m.now ≡ medium_size read.places }
    requires mark_known { MarkKnown read.places op read.slot.low read.mark m.now }
    ensures { result ≡ mark_of read.places m.now }
{
    let n = read.mark as u64;
    match op {
        Operation::Prepare(_, to) => closed_mark(read.slot.low, to, n),
        Operation::Trim(to) => to.min(n),
        Operation::Note(_, _) => n,
        Operation::Append(_) => scan::mark_from(t, m, read.places, read.mark) as u64,
    }
}

// Whether the bytes given for a torn write pass as a slot or as any place of the medium: only the place that they name can it be.
pub fn given_pass(t: &Tables, g: &Place, places: u64) -> bool
    ensures { result ≡ passes places g.now }
{
    if slots::valid(t, &g[0..SLOT]) {
        return true;
    }
    let n = octets::get_be(&g[ID_AT..CLIENT_AT]);
    if n == 0 || places < n {
        return false;
    }
    place_reader::valid(t, g, n)
}
