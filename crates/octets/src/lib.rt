// Bytes at an offset of a slice, and the big-endian numbers that they stand for.
#![tactic(auto)]

ghost use Rattle.std.specs.Prelude.{◌≡◌, ◌&&◌, ◌+◌, ◌≤◌, ◌<◌, ◌^◌, eqb, length, replicate};
ghost use Rattle.octets.specs.Octets.{write_at, be_of, be_bytes, all_zero};

// dst becomes src. By index: `copy_from_slice` is a call of memmove, which the archive for C would then need from outside, and slower where few bytes are copied.
pub fn copy(dst: &mut [u8], src: &[u8])
    requires { length dst.old ≡ length src.now }
    ensures { dst.new ≡ src.now }
{
    for i in 0..src.len() {
        dst[i] = src[i];
    }
}

pub fn clear(dst: &mut [u8])
    ensures { dst.new ≡ replicate (length dst.old) 0 }
{
    dst.fill(0);
}

// The bytes of src at an offset.
pub fn put(m: &mut [u8], at: usize, src: &[u8])
    requires { at + length src.now ≤ length m.old }
    ensures { m.new ≡ write_at at src.now m.old }
{
    copy(&mut m[at..at + src.len()], src);
}

// The number that at most eight bytes stand for, byte by byte.
fn byte_by_byte(s: &[u8]) -> u64
    requires { length s.now ≤ 8 }
    ensures { (result ≡ be_of s.now) × (result < 256 ^ length s.now) }
{
    let mut v: u64 = 0;
    for b in s {
        v = v * 256 + u64::from(*b);
    }
    v
}

// The number that at most eight bytes stand for. Eight are read as two fours: then the compiler makes one load of them, and else eight.
pub fn get_be(s: &[u8]) -> u64
    requires { length s.now ≤ 8 }
    ensures { (result ≡ be_of s.now) × (result < 256 ^ length s.now) }
{
    if s.len() == 8 {
        return byte_by_byte(&s[0..4]) * 4294967296 + byte_by_byte(&s[4..8]);
    }
    byte_by_byte(s)
}

// The low bytes of v, as many as the slice has. By index: tried over `iter_mut().rev()`, and the proof did not close, since no law of std's ties what such
// a loop writes to the slice.
pub fn set_be(dst: &mut [u8], v: u64)
    ensures { dst.new ≡ be_bytes (length dst.old) v }
{
    let mut x = v;
    for i in (0..dst.len()).rev() {
        dst[i] = (x % 256) as u8;
        x /= 256;
    }
}

// The k low bytes of v at an offset.
pub fn put_be(m: &mut [u8], at: usize, k: usize, v: u64)
    requires { at + k ≤ length m.old }
    ensures { m.new ≡ write_at at (be_bytes k v) m.old }
{
    set_be(&mut m[at..at + k], v);
}

// Every byte is looked at, also behind one that isn't zero: without a way out of the loop the compiler tests many bytes at once.
pub fn all_zero(s: &[u8]) -> bool
    ensures { result ≡ all_zero s.now }
{
    let mut ok = true;
    for b in s {
        ok &= *b == 0;
    }
    ok
}
