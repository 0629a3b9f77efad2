// Where a byte stands in a part of a slice.
#![tactic(auto)]

ghost use Rattle.std.specs.Prelude.{◌≡◌, ◌+◌, ◌≤◌, length};
ghost use Rattle.byte_search.specs.Bytes.{index_of, slice};

// The offset of the first b from offset `from` up to `to`, or `to` where there is none.
pub fn find(s: &[u8], from: usize, to: usize, b: u8) -> usize
    requires { (from ≤ to) × (to ≤ length s.now) }
    ensures { (result ≡ from + index_of b (slice from to s.now)) × ((from ≤ result) × (result ≤ to)) }
{
    s[from..to]
        .iter()
        .position(|x| *x == b)
        .map_or(to, |i| from + i)
}
