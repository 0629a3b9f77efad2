// Numbers in base ten: digits only, at least one, and no more than the width holds.
ghost use Rattle.std.specs.Prelude.{◌≡◌, ◌+◌, ◌≤◌, length, Some};
ghost use Rattle.octets.specs.Octets.{write_at};
ghost use Rattle.text.specs.Text.{with_digit, number_of, word_of, decimal_of};

// The number with one more digit behind it.
fn push(n: u64, b: u8) -> Option<u64>
    ensures { result ≡ with_digit (Some n) b }
{
    if !b.is_ascii_digit() {
        return None;
    }
    n.checked_mul(10)?.checked_add(u64::from(b - b'0'))
}

// The number of 64 bits that digits stand for.
pub fn decimal(s: &[u8]) -> Option<u64>
    ensures { result ≡ number_of s.now }
{
    if s.is_empty() {
        return None;
    }
    let mut n = 0;
    for b in s {
        n = push(n, *b)?;
    }
    Some(n)
}

// The same of 32 bits.
pub fn decimal32(s: &[u8]) -> Option<u32>
    ensures { result ≡ word_of (number_of s.now) }
{
    u32::try_from(decimal(s)?).ok()
}

// A number's digits at an offset, and how many there are. They go into lent bytes: `Display` would need a writer over these, and there is no
// heap for a `String`.
pub fn put_decimal(out: &mut [u8], at: usize, v: u64) -> usize
    requires { at + 20 ≤ length out.old }
    ensures upper_bound { result ≤ 20 }
    ensures value { result ≡ length (decimal_of v) }
    ensures out_after { out.new ≡ write_at at (decimal_of v) out.old }
{
    let mut digits = [0u8; 20];
    let n = io::decimal(v, &mut digits);
    octets::put(out, at, &digits[0..n]);
    n
}
