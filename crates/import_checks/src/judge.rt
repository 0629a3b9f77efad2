// Whether a pair can be imported: the slices' lengths, the headers and the medium, then offsets and records in one pass over both files.
ghost use Rattle.std.specs.Prelude.{◌≡◌, false, cond, ◌≤◌, length, take, drop};
ghost use Rattle.storage.specs.Sizes.{slots_size};
ghost use Rattle.segment.specs.Header.{header_size};
ghost use Rattle.segment.specs.Pair.{index_size};
ghost use Rattle.import_checks.specs.Refusals.{offsets_in, outside, unready, offsets_differ, records_unfit, ok, no, reply_of};

use crate::Reason;
use crc32::Tables;
use segment::header::{HEADER, Stamp, write_header};
use segment::pair::OFFSET;
use segment_reader::{is_record, size_at};
use storage::sizes::{PLACES_LIMIT, SLOTS, medium_size};

// How many offsets an index file of so many bytes has room for.
pub fn offsets_in(size: usize) -> usize
    ensures { result ≡ offsets_in size }
{
    size.saturating_sub(HEADER) / OFFSET
}

// 1, by the lengths of the medium and the index file.
pub fn is_outside(places: u64, medium: usize, index: usize) -> bool
    ensures { result ≡ outside places medium index }
{
    !(1..=PLACES_LIMIT).contains(&places)
        || medium != medium_size(places)
        || index != HEADER + OFFSET * offsets_in(index)
}

// 24: a header, a place that is not wiped, more offsets than places.
pub fn is_unready(places: u64, m: &[u8], z: Stamp, file: &[u8], index: &[u8]) -> bool
    requires { slots_size ≤ length m.now }
    ensures { (result ≡ unready places m.now z (record { data_file = file.now; index_file = index.now })) × (result ≡ false → header_size ≤ length file.now) }
{
    let mut h = [0u8; HEADER];
    write_header(&mut h, z);
    !file.starts_with(&h)
        || !index.starts_with(&h)
        || !octets::all_zero(&m[SLOTS..])
        || places < offsets_in(index.len()) as u64
}

// 25 and 26. A record that fails is no reason to stop: a later offset may be another, and goes before it.
// An index, since the file goes on by each record's own size beside the index file's stride, with a way out in the middle: chunks are no plainer.
pub fn judge_pair(t: &Tables, file: &[u8], index: &[u8], count: usize) -> Result<(), Reason>
    requires index_len { length index.now ≡ index_size count }
    requires header_size_in_bounds { header_size ≤ length file.now }
    ensures { reply_of result ≡ cond (offsets_differ count (drop header_size index.now) header_size (drop header_size file.now)) (no 25) (cond (records_unfit 1 count (drop header_size file.now)) (no 26) ok) }
{
    let mut spoilt = false;
    let mut at = HEADER;
    for n in 0..count {
        let i = HEADER + OFFSET * n;
        if octets::get_be(&index[i..i + OFFSET]) != at as u64 {
            return Err(Reason::OtherOffset);
        }
        let Some(size) = size_at(file, at) else {
            return Err(Reason::UnfitRecord);
        };
        spoilt = spoilt || !is_record(t, &file[at..], n as u64 + 1);
        at += size;
    }
    if spoilt || at < file.len() {
        return Err(Reason::UnfitRecord);
    }
    Ok(())
}
