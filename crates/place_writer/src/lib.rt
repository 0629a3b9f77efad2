// A place of the log written: the record of fields and data. The definitions are storage's.
#![tactic(auto)]

ghost use Rattle.std.specs.Prelude.{◌≡◌, ◌≤◌, length, take, drop};
ghost use Rattle.octets.specs.Octets.{write_at, fields_of, offset_of};
ghost use Rattle.storage.specs.Layout.{data_offset, padded};
ghost use Rattle.storage.specs.Sizes.{place_layout, place_size, data_limit};
ghost use Rattle.storage.specs.Places.{record_bytes, place_numbers};

use crc32::Tables;
use storage::place::Fields;
use storage::sizes::{
    CLIENT_AT, DATA_AT, GENERATION_AT, HEADER_AT, ID_AT, LENGTH_AT, LONG, PARTITION_AT,
    PLACE_CHECKED, SEQUENCE_AT, WORD,
};

// The first four numbers of a record.
fn lower(out: &mut [u8], f: Fields)
    requires { length out.old ≡ place_size }
    ensures { out.new ≡ write_at 0 (fields_of (take 4 (place_numbers f 0))) out.old }
{
    octets::put_be(out, ID_AT, LONG, f.id);
    octets::put_be(out, CLIENT_AT, WORD, f.client as u64);
    octets::put_be(out, GENERATION_AT, WORD, f.generation as u64);
    octets::put_be(out, PARTITION_AT, WORD, f.partition as u64);
}

// The other three.
fn upper(out: &mut [u8], f: Fields, n: usize)
    requires { length out.old ≡ place_size }
    ensures { out.new ≡ write_at (offset_of place_layout.widths 4) (fields_of (drop 4 (place_numbers f n))) out.old }
{
    octets::put_be(out, SEQUENCE_AT, LONG, f.sequence);
    octets::put_be(out, HEADER_AT, WORD, f.header as u64);
    octets::put_be(out, LENGTH_AT, WORD, n as u64);
}

// The data, with zeros behind them.
fn fill(out: &mut [u8], d: &[u8])
    requires out_len { length out.old ≡ place_size }
    requires d_len_bound { length d.now ≤ data_limit }
    ensures { out.new ≡ write_at (data_offset place_layout) (padded place_layout d.now) out.old }
{
    let k = DATA_AT + d.len();
    octets::put(out, DATA_AT, d);
    octets::clear(&mut out[k..PLACE_CHECKED]);
}

// The record of fields and data.
pub fn encode(t: &Tables, out: &mut [u8], f: Fields, d: &[u8])
    requires out_len { length out.old ≡ place_size }
    requires d_len_bound { length d.now ≤ data_limit }
    ensures { out.new ≡ record_bytes f d.now }
{
    lower(out, f);
    upper(out, f, d.len());
    fill(out, d);
    crc32::seal(t, out, PLACE_CHECKED);
}
