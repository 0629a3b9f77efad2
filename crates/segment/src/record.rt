// A record of the data file, written from a place.
ghost use Rattle.std.specs.Prelude.{◌≡◌, ◌≤◌, length};
ghost use Rattle.storage.specs.Sizes.{place_size, data_limit};
ghost use Rattle.storage.specs.Places.{size_of, fields_in, data_of};
ghost use Rattle.segment.specs.Records.{record_bytes, record_size};

use crc32::Tables;
use storage::sizes::{CHECK, DATA_AT};

// Behind a place's numbers: the data check, the data, the record's check.
pub const CHECK_AT: usize = DATA_AT;

pub const CONTENT_AT: usize = CHECK_AT + CHECK;

// A record without data.
pub const LEAST: usize = CONTENT_AT + CHECK;

// How many bytes the record of a place has.
pub fn size_of(p: &[u8]) -> usize
    requires p_len { length p.now ≡ place_size }
    requires p_bound { size_of p.now ≤ data_limit }
    ensures { result ≡ record_size p.now }
{
    LEAST + place_reader::data_length(p) as usize
}

// The record of a place. Its numbers stand before the data check as they stand in the place.
pub fn write_record(t: &Tables, out: &mut [u8], p: &[u8])
    requires p_len { length p.now ≡ place_size }
    requires p_bound { size_of p.now ≤ data_limit }
    requires out_len { length out.old ≡ record_size p.now }
    ensures { out.new ≡ record_bytes (fields_in p.now) (data_of p.now) }
{
    let end = DATA_AT + place_reader::data_length(p) as usize;
    let sum = crc32::crc(t, &p[DATA_AT..end]);
    octets::put(out, 0, &p[0..DATA_AT]);
    octets::put_be(out, CHECK_AT, CHECK, sum as u64);
    octets::put(out, CONTENT_AT, &p[DATA_AT..end]);
    crc32::seal(t, out, CHECK + end);
}
