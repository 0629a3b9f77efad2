// Bytes as hexadecimal digits, two a byte: read in either case, written in capitals.
#![tactic(auto)]

ghost use Rattle.std.specs.Prelude.{◌≡◌, ◌↔◌, true, ◌*◌, ◌<◌, ◌≤◌, length, slice_index, EachIndex, IsTrue, SomeIff};
ghost use Rattle.octets.specs.Octets.{write_at};
ghost use Rattle.hex_digits.specs.Hex.{digit_of, is_hex, bytes_of, glyph_of, hex_of};

// What a hexadecimal digit stands for, if the byte is one.
#[tactic(auto, using(std::proofs::lemmas::Bool::Decides::nat_tests), unfolding(crate::specs::Hex::digit_of))]
fn digit(b: u8) -> Option<u8>
    ensures { SomeIff result (digit_of b < 16) (digit_of b) }
{
    match b {
        b'0'..=b'9' => Some(b - b'0'),
        b'A'..=b'F' => Some(b - b'A' + 10),
        b'a'..=b'f' => Some(b - b'a' + 10),
        _ => None,
    }
}

fn all_digits(s: &[u8]) -> bool
    ensures { IsTrue result ↔ EachIndex s.now (λ k. digit_of (slice_index s.now k) < 16) }
{
    s.iter().all(|b| digit(*b).is_some())
}

// Whether a field is digits in pairs.
pub fn is_hex(s: &[u8]) -> bool
    ensures { result ≡ is_hex s.now }
{
    s.len() % 2 == 0 && all_digits(s)
}

// The bytes that they stand for, at the start of out. By index, here and in `spell`: no law of std's ties what a loop over `iter_mut` zipped with
// `chunks_exact`, or over `chunks_exact_mut`, writes to the slice, and the proof of such a loop did not close (locks `fill_table`).
pub fn read(s: &[u8], out: &mut [u8])
    requires s_value { is_hex s.now ≡ true }
    requires s_len_bound { length s.now ≤ 2 * length out.old }
    ensures { out.new ≡ write_at 0 (bytes_of s.now) out.old }
{
    for i in 0..s.len() / 2 {
        out[i] = 16 * digit(s[2 * i]).unwrap() + digit(s[2 * i + 1]).unwrap();
    }
}

// The digit of a number below 16.
fn glyph(d: u8) -> u8
    requires { d < 16 }
    ensures { result ≡ glyph_of d }
{
    if d < 10 { b'0' + d } else { b'A' + (d - 10) }
}

// The digits of some bytes.
pub fn spell(b: &[u8], out: &mut [u8])
    requires { length out.old ≡ 2 * length b.now }
    ensures { out.new ≡ hex_of b.now }
{
    for i in 0..b.len() {
        out[2 * i] = glyph(b[i] / 16);
        out[2 * i + 1] = glyph(b[i] % 16);
    }
}
