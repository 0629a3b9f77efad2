// A place of the log judged and read: its validity, and what its record holds. The definitions are storage's.
#![tactic(auto)]

ghost use Rattle.std.specs.Prelude.{◌≡◌, true, ◌&&◌, ◌+◌, ◌≤◌, length};
ghost use Rattle.octets.specs.Octets.{part, be_of};
ghost use Rattle.crc32.specs.Crc32.{checked};
ghost use Rattle.storage.specs.Layout.{check_offset};
ghost use Rattle.storage.specs.Sizes.{place_layout, place_size};
ghost use Rattle.storage.specs.Places.{valid_place, fields_in, id_of, size_of};

use crc32::Tables;
use storage::place::Fields;
use storage::sizes::{
    CLIENT_AT, DATA_AT, DATA_LIMIT, GENERATION_AT, HEADER_AT, ID_AT, LENGTH_AT, PARTITION_AT,
    PLACE, PLACE_CHECKED, PLACE_ZEROS_AT, SEQUENCE_AT, WORD,
};

// Whether only the check of s as place n is left to judge: its length, the ID, the data's length and the zeros are as they have to be.
pub fn fields_fit(s: &[u8], n: u64) -> bool
    ensures { (valid_place n s.now ≡ (result && checked (check_offset place_layout) s.now)) × (result ≡ true → (length s.now ≡ place_size) × (id_of s.now ≡ n)) }
{
    if s.len() != PLACE {
        return false;
    }
    if octets::get_be(&s[ID_AT..CLIENT_AT]) != n {
        return false;
    }
    let size = octets::get_be(&s[LENGTH_AT..DATA_AT]);
    if (DATA_LIMIT as u64) < size {
        return false;
    }
    let k = DATA_AT + size as usize;
    octets::all_zero(&s[k..PLACE_ZEROS_AT]) && octets::all_zero(&s[PLACE_ZEROS_AT..PLACE_CHECKED])
}

// Whether s is valid as place n. The check comes last, since it takes longest.
pub fn valid(t: &Tables, s: &[u8], n: u64) -> bool
    ensures { result ≡ valid_place n s.now }
{
    fields_fit(s, n) && crc32::check(t, s, PLACE_CHECKED)
}

// The four-byte number at an offset.
pub fn number(s: &[u8], at: usize) -> u32
    requires { at + 4 ≤ length s.now }
    ensures { result ≡ be_of (part at 4 s.now) }
{
    octets::get_be(&s[at..at + WORD]) as u32
}

// The numbers that a record holds.
pub fn decode(s: &[u8]) -> Fields
    requires { length s.now ≡ place_size }
    ensures { result ≡ fields_in s.now }
{
    Fields {
        id: octets::get_be(&s[ID_AT..CLIENT_AT]),
        client: number(s, CLIENT_AT),
        generation: number(s, GENERATION_AT),
        partition: number(s, PARTITION_AT),
        sequence: octets::get_be(&s[SEQUENCE_AT..HEADER_AT]),
        header: number(s, HEADER_AT),
    }
}

// The length of its data.
pub fn data_length(s: &[u8]) -> u32
    requires { length s.now ≡ place_size }
    ensures { result ≡ size_of s.now }
{
    number(s, LENGTH_AT)
}
