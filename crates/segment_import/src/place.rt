// A place written from the record of a data file.
ghost use Rattle.std.specs.Prelude.{◌≡◌, ◌≤◌, length};
ghost use Rattle.storage.specs.Sizes.{place_size, data_limit};
ghost use Rattle.storage.specs.Places.{size_of};
ghost use Rattle.segment.specs.Records.{record_size, place_in};

use crc32::Tables;
use segment::record::CONTENT_AT;
use storage::sizes::{DATA_AT, PLACE_CHECKED};

// The place of the record that s begins with.
pub fn write_place(t: &Tables, out: &mut [u8], s: &[u8])
    requires out_len { length out.old ≡ place_size }
    requires s_bound { size_of s.now ≤ data_limit }
    requires s_in_bounds { record_size s.now ≤ length s.now }
    ensures { out.new ≡ place_in s.now }
{
    let k = segment_reader::length_field(s) as usize;
    let end = CONTENT_AT + k;
    let behind = DATA_AT + k;
    octets::put(out, 0, &s[0..DATA_AT]);
    octets::put(out, DATA_AT, &s[CONTENT_AT..end]);
    octets::clear(&mut out[behind..PLACE_CHECKED]);
    crc32::seal(t, out, PLACE_CHECKED);
}
