// A record of a data file judged: its length field, its size, and whether it is the record of its number.
#![tactic(auto)]

ghost use Rattle.std.specs.Prelude.{◌≡◌, Some, None, cond, ◌+◌, ◌≤◌, length, drop};
ghost use Rattle.storage.specs.Layout.{data_offset};
ghost use Rattle.storage.specs.Sizes.{place_layout, data_limit};
ghost use Rattle.storage.specs.Places.{size_of};
ghost use Rattle.segment.specs.Records.{record_size, longest_record, sized, is_record};

use crc32::Tables;
use segment::record::{CHECK_AT, CONTENT_AT, LEAST};
use storage::sizes::{CLIENT_AT, DATA_AT, DATA_LIMIT, ID_AT, LENGTH_AT};

// The length field of the record that s begins with.
pub fn length_field(s: &[u8]) -> u64
    requires { data_offset place_layout ≤ length s.now }
    ensures { result ≡ size_of s.now }
{
    octets::get_be(&s[LENGTH_AT..DATA_AT])
}

// The size of the record at an offset; none where its length field is above the limit or not wholly in the file.
pub fn size_at(file: &[u8], at: usize) -> Option<usize>
    requires { at ≤ length file.now + longest_record }
    ensures { result ≡ cond (sized (drop at file.now)) (Some (record_size (drop at file.now))) None }
{
    if file.len() < at + DATA_AT {
        return None;
    }
    let k = length_field(&file[at..]);
    if (DATA_LIMIT as u64) < k {
        return None;
    }
    Some(LEAST + k as usize)
}

// s begins with record n.
pub fn is_record(t: &Tables, s: &[u8], n: u64) -> bool
    requires place_layout_in_bounds { data_offset place_layout ≤ length s.now }
    requires s_bound { size_of s.now ≤ data_limit }
    ensures { result ≡ is_record n s.now }
{
    let k = length_field(s) as usize;
    let end = CONTENT_AT + k;
    let size = LEAST + k;
    size <= s.len()
        && octets::get_be(&s[ID_AT..CLIENT_AT]) == n
        && u64::from(crc32::crc(t, &s[CONTENT_AT..end])) == octets::get_be(&s[CHECK_AT..CONTENT_AT])
        && crc32::check(t, &s[..size], end)
}
