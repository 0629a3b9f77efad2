// A place of the old layout, which is read only: its validity, and its record written in the new layout.
#![tactic(auto)]

ghost use Rattle.std.specs.Prelude.{◌≡◌, ◌≤◌, length};
ghost use Rattle.storage.specs.Sizes.{place_size, data_limit};
ghost use Rattle.storage.specs.Places.{size_as};
ghost use Rattle.old_places.specs.Old.{old_layout, old_place_size, old_fields, old_valid, renewed};

use crc32::Tables;
use storage::place::Fields;
use storage::sizes::{
    CHECK, CLIENT_AT, DATA_LIMIT, GENERATION_AT, ID_AT, PARTITION_AT, SEQUENCE_AT, WORD,
};

// The fields up to the partition are where they are now; the sequence has a word, and no zeros stand before the check.
const HEADER_AT: usize = SEQUENCE_AT + WORD;

const LENGTH_AT: usize = HEADER_AT + WORD;

const DATA_AT: usize = LENGTH_AT + WORD;

const CHECKED: usize = DATA_AT + DATA_LIMIT;

pub const OLD_PLACE: usize = CHECKED + CHECK;

// Whether s is valid as place n. The check comes last, since it takes longest.
// Beside place_reader's: another layout, read only. The sequence has another width, and no zeros stand before the check.
pub fn valid(t: &Tables, s: &[u8], n: u64) -> bool
    requires s_len { length s.now ≡ old_place_size }
    ensures { result ≡ old_valid n s.now }
{
    if octets::get_be(&s[ID_AT..CLIENT_AT]) != n {
        return false;
    }
    let size = octets::get_be(&s[LENGTH_AT..DATA_AT]);
    if (DATA_LIMIT as u64) < size {
        return false;
    }
    let k = DATA_AT + size as usize;
    octets::all_zero(&s[k..CHECKED]) && crc32::check(t, s, CHECKED)
}

// The numbers that a record holds.
// Beside place_reader's: another layout, whose sequence has another width.
fn decode(s: &[u8]) -> Fields
    requires { length s.now ≡ old_place_size }
    ensures { result ≡ old_fields s.now }
{
    Fields {
        id: octets::get_be(&s[ID_AT..CLIENT_AT]),
        client: place_reader::number(s, CLIENT_AT),
        generation: place_reader::number(s, GENERATION_AT),
        partition: place_reader::number(s, PARTITION_AT),
        sequence: place_reader::number(s, SEQUENCE_AT) as u64,
        header: place_reader::number(s, HEADER_AT),
    }
}

// The record of s in the new layout.
pub fn renew(t: &Tables, out: &mut [u8], s: &[u8])
    requires out_len { length out.old ≡ place_size }
    requires s_len { length s.now ≡ old_place_size }
    requires s_bound { size_as old_layout s.now ≤ data_limit }
    ensures { out.new ≡ renewed s.now }
{
    let end = DATA_AT + place_reader::number(s, LENGTH_AT) as usize;
    place_writer::encode(t, out, decode(s), &s[DATA_AT..end]);
}
