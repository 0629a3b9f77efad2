// The numbers among a line's fields.
ghost use Rattle.std.specs.Prelude.{◌<◌, ◌≤◌, IfSome};

use cluster::Shape;
use text::{line, number};

// Whether the n fields behind the first are numbers. It goes by `behind`, the definition's own step: `split` is no plainer.
fn are_numbers(line: &[u8], n: usize) -> bool {
    let mut rest = line;
    for _ in 0..n {
        rest = line::behind(rest);
        if number::decimal(line::first(rest)).is_none() {
            return false;
        }
    }
    true
}

// Whether a line has n fields, and behind its first numbers, where so many in all are none.
pub fn fit(line: &[u8], n: usize, others: usize) -> bool {
    line::count(line) == n && are_numbers(line, n.saturating_sub(others))
}

// The number that field k is; 0 where it is none.
pub fn at(line: &[u8], k: usize) -> u64 {
    number::decimal(line::field(line, k)).unwrap_or(0)
}

// The same, if it is below a limit: the number of a server, a replica or the like.
pub fn below(line: &[u8], k: usize, limit: usize) -> Option<usize>
    ensures { IfSome result (λ i. i < limit) }
{
    up_to(line, k, limit.checked_sub(1)?)
}

// The same, if it is no more than the most: a length, or where something begins.
pub fn up_to(line: &[u8], k: usize, most: usize) -> Option<usize>
    ensures { IfSome result (λ n. n ≤ most) }
{
    let v = at(line, k);
    (v <= most as u64).then_some(v as usize)
}

// The same, if 32 bits hold it.
pub fn word(line: &[u8], k: usize) -> Option<u32> {
    u32::try_from(at(line, k)).ok()
}

// R, N and K behind the first field.
pub fn shape(line: &[u8]) -> Shape {
    Shape {
        replicas: at(line, 1),
        places: at(line, 2),
        interval: at(line, 3),
    }
}
