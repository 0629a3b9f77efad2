// CRC-32 of IEEE 802.3, reflected, eight bytes a step. The loops over four bytes have a fixed count, so the compiler unrolls them.
#![tactic(auto)]

ghost use Rattle.std.specs.Prelude.{◌≡◌, ◌+◌, ◌*◌, ◌≤◌, ◌<◌, length, take, drop};
ghost use Rattle.std.specs.Int.Bits.{bit_xor};
ghost use Rattle.octets.specs.Octets.{part, write_at, be_bytes};
ghost use Rattle.crc32.specs.Crc32.{bit_steps, crc_from, crc_of, checked};
ghost use Rattle.crc32.specs.Tables.{tables_of, le_of};

mod entries;

// The eight tables in a row; whoever holds them holds the right ones. They are made once, by `new`, and lent on: each call of a function that names a
// constant copies it to the stack.
#[derive(Clone, Copy)]
pub struct Tables {
    entries: [u32; 2048],
    ghost are_steps: { entries ≡ tables_of },
}

impl Tables {
    pub fn new() -> Tables {
        Tables {
            entries: entries::ENTRIES,
        }
    }

    // Entry b of table k: what 8 * (k + 1) bit steps make of the byte b.
    pub fn entry(&self, k: usize, b: usize) -> u32
        requires { (k < 8) × (b < 256) }
        ensures { result ≡ bit_steps (8 * (k + 1)) b }
    {
        self.entries[256 * k + b]
    }
}

// The number that the four bytes from an offset on stand for, lowest first. By sums: each byte is looked up by itself, and behind `from_le_bytes` the compiler
// cuts the bytes out of a word again, for which the scan's lanes have no registers left (docs/DESIGN-PASS.md, "Speed").
fn load(s: &[u8], at: usize) -> u32
    requires { at + 4 ≤ length s.now }
    ensures { result ≡ le_of (part at 4 s.now) }
{
    let upper = s[at + 3] as u32 * 256 + s[at + 2] as u32;
    (upper * 256 + s[at + 1] as u32) * 256 + s[at] as u32
}

// What the bit steps of `width` bytes make of four, beside what is looked up already: a look-up for each byte of x.
fn look_up(t: &Tables, x: u32, width: usize, before: u32) -> u32
    requires le_width { (4 ≤ width) × (width ≤ 8) }
    ensures { result ≡ bit_xor before (bit_steps (8 * width) x) }
{
    let mut r = before;
    let mut y = x;
    for k in (width - 4..width).rev() {
        r ^= t.entries[256 * k + (y % 256) as usize];
        y /= 256;
    }
    r
}

// The register after the four bytes from an offset on.
pub fn four(t: &Tables, s: &[u8], at: usize, before: u32) -> u32
    requires at_in_bounds { at + 4 ≤ length s.now }
    ensures { result ≡ crc_from before (part at 4 s.now) }
{
    look_up(t, before ^ load(s, at), 4, 0)
}

// The register after eight bytes. The upper four need not wait for the register, so they are looked up first.
pub fn eight(t: &Tables, s: &[u8], at: usize, before: u32) -> u32
    requires at_in_bounds { at + 8 ≤ length s.now }
    ensures { result ≡ crc_from before (part at 8 s.now) }
{
    let upper = look_up(t, load(s, at + 4), 4, 0);
    look_up(t, before ^ load(s, at), 8, upper)
}

// The register after the bytes of a slice, a byte a step.
fn single(t: &Tables, s: &[u8], before: u32) -> u32
    ensures { result ≡ crc_from before s.now }
{
    let mut r = before;
    for b in s {
        let x = r ^ u32::from(*b);
        r = (x / 256) ^ t.entries[(x % 256) as usize];
    }
    r
}

// The same, with four bytes at once if there are so many.
fn tail(t: &Tables, s: &[u8], before: u32) -> u32
    ensures { result ≡ crc_from before s.now }
{
    if s.len() < 4 {
        return single(t, s, before);
    }
    single(t, &s[4..], four(t, s, 0, before))
}

// The CRC of a slice. The next eight bytes are reached by a sum, as in the lanes (README, "Speed").
pub fn crc(t: &Tables, s: &[u8]) -> u32
    ensures { result ≡ crc_of s.now }
{
    let mut r: u32 = 0xffff_ffff;
    let mut at = 0;
    for _word in 0..s.len() / 8 {
        r = eight(t, s, at, r);
        at += 8;
    }
    tail(t, &s[at..], r) ^ 0xffff_ffff
}

// Whether the four bytes after the first k are the CRC of these.
pub fn check(t: &Tables, s: &[u8], k: usize) -> bool
    requires k_in_bounds { k + 4 ≤ length s.now }
    ensures { result ≡ checked k s.now }
{
    u64::from(crc(t, &s[..k])) == octets::get_be(&s[k..k + 4])
}

// The CRC of the first k bytes goes behind them.
pub fn seal(t: &Tables, s: &mut [u8], k: usize)
    requires k_in_bounds { k + 4 ≤ length s.old }
    ensures { s.new ≡ write_at k (be_bytes 4 (crc_of (take k s.old))) s.old }
{
    let c = crc(t, &s[..k]);
    octets::put_be(s, k, 4, u64::from(c));
}
