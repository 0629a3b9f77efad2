// What fields of a line stand for.
ghost use Rattle.std.specs.Prelude.{◌≡◌, ◌≤◌, length, Some};
ghost use Rattle.octets.specs.Octets.{write_at};
ghost use Rattle.text.specs.Text.{field_of, number_of, word_of};
ghost use Rattle.lines.specs.Values.{fate_of, all_numbers, numbers_of};

use fate::Fate;
use text::{line, number};

pub fn number_at(line: &[u8], k: usize) -> Option<u64>
    ensures { result ≡ number_of (field_of k line.now) }
{
    number::decimal(line::field(line, k))
}

pub fn word_at(line: &[u8], k: usize) -> Option<u32>
    ensures { result ≡ word_of (number_of (field_of k line.now)) }
{
    number::decimal32(line::field(line, k))
}

// A fate, if the number is that of one.
fn fate_of(n: u64) -> Option<Fate>
    ensures { result ≡ fate_of (Some n) }
{
    match n {
        0 => Some(Fate::Answered),
        1 => Some(Fate::Lost),
        2 => Some(Fate::AnswerLost),
        _ => None,
    }
}

pub fn fate_at(line: &[u8], k: usize) -> Option<Fate>
    ensures { result ≡ fate_of (number_of (field_of k line.now)) }
{
    fate_of(number_at(line, k)?)
}

// Whether each of the first n fields is a number. It goes field by field, since `behind` is the definition's own step: `split` is no plainer.
pub fn all_numbers(s: &[u8], n: usize) -> bool
    ensures { result ≡ all_numbers n s.now }
{
    let mut t = s;
    for _i in 0..n {
        if number::decimal(line::first(t)).is_none() {
            return false;
        }
        t = line::behind(t);
    }
    true
}

// Their values, at the start of out. Here too `behind` is the definition's own step: `split` is no plainer.
pub fn read_numbers(s: &[u8], n: usize, out: &mut [u64])
    requires { n ≤ length out.old }
    ensures { out.new ≡ write_at 0 (numbers_of n s.now) out.old }
{
    let mut t = s;
    for i in 0..n {
        out[i] = number::decimal(line::first(t)).unwrap_or(0);
        t = line::behind(t);
    }
}
