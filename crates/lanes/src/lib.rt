// The CRCs of four equal pieces of a slice, side by side. A step waits for the one before it in its lane, but not for those of the other
// lanes, so that the processor works on several at once.
#![tactic(auto)]

ghost use Rattle.std.specs.Prelude.{◌≡◌, ◌+◌, ◌*◌, ◌≤◌, ◌<◌, ◌^◌, length};
ghost use Rattle.octets.specs.Octets.{part};
ghost use Rattle.crc32.specs.Crc32.{crc_from};
ghost use Rattle.lanes.specs.Lanes.{lanes, Pieces, width, Onward, after_number, Numbered};

use crc32::Tables;

// How many pieces there are.
pub const LANES: usize = 4;

pub type Registers = [u32; LANES];

// The register after eight zero bytes.
const AFTER_ZEROS: u32 = 0x9add_2096;

// The register after eight bytes, or after four. A flag says which: the law of a step that is passed in would stand in two contracts, and be no shorter than `width`.
fn step(t: &Tables, s: &[u8], at: usize, wide: bool, before: u32) -> u32
    requires wide_in_bounds { at + width wide ≤ length s.now }
    ensures { result ≡ crc_from before (part at (width wide) s.now) }
{
    if wide {
        crc32::eight(t, s, at, before)
    } else {
        crc32::four(t, s, at, before)
    }
}

// A step of each lane, at an offset of its piece. The next piece is reached by a sum (README, "Speed").
fn abreast(t: &Tables, s: &[u8], at: usize, size: usize, wide: bool, before: Registers) -> Registers
    requires pieces { Pieces size s.now }
    requires wide_bound { at + width wide ≤ size }
    ensures { Onward (width wide) at size s.now before result }
{
    let mut next = [0; LANES];
    let mut a = at;
    for j in 0..LANES {
        next[j] = step(t, s, a, wide, before[j]);
        a += size;
    }
    next
}

// So many words of each piece, two at a time, each reached by a sum (README, "Speed"). By offset: the lanes read at offsets of one slice, which chunks of it
// are not. The lanes' next state has a name of its own, since Rattle does not lay a call's array in a variable that has one already.
pub fn words(
    t: &Tables,
    s: &[u8],
    at: usize,
    size: usize,
    count: usize,
    before: Registers,
) -> Registers
    requires pieces { Pieces size s.now }
    requires count_bound { at + 4 * count ≤ size }
    ensures { Onward (4 * count) at size s.now before result }
{
    let mut r = before;
    let mut a = at;
    for _pair in 0..count / 2 {
        let next = abreast(t, s, a, size, true, r);
        r = next;
        a += 8;
    }
    if count % 2 == 0 {
        return r;
    }
    abreast(t, s, a, size, false, r)
}

// The register after the eight bytes of a number: a small one takes two look-ups, since its upper bytes are zeros.
fn number(t: &Tables, n: u64) -> u32
    ensures { result ≡ after_number n }
{
    if n < 65536 {
        return t.entry(1, (n / 256) as usize) ^ t.entry(0, (n % 256) as usize) ^ AFTER_ZEROS;
    }
    let mut b = [0u8; 8];
    octets::set_be(&mut b, n);
    crc32::eight(t, &b, 0, 0xffff_ffff)
}

// The lanes behind a number each, one after the other. By index, which the number counts with: an `iter_mut` with `enumerate` is no plainer.
pub fn numbers(t: &Tables, n: u64) -> Registers
    requires lanes_bound { n + lanes < 2 ^ 64 }
    ensures { Numbered n result }
{
    let mut r = [0; LANES];
    for j in 0..LANES {
        r[j] = number(t, n + j as u64);
    }
    r
}
