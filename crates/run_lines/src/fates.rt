// The fate of an operation, as three fields of a line say it.
ghost use Rattle.std.specs.Prelude.{◌≤◌};

use fate::{Fate, Left};
use text::{line, number};

fn left(number: u64) -> Option<Left> {
    match number {
        0 => Some(Left::Old),
        1 => Some(Left::New),
        2 => Some(Left::Torn),
        _ => None,
    }
}

// The kind is a number: it is the field as it stands in the line, and becomes a Fate here.
fn fate(kind: u64, w: u64, left_as: u64) -> Option<Fate> {
    match kind {
        0 => Some(Fate::Answered),
        1 => Some(Fate::Lost),
        2 => Some(Fate::AnswerLost),
        3 => Some(Fate::Cut(w, left(left_as)?)),
        _ => None,
    }
}

// The fate that field k and the two behind it say, if they are those of one.
pub fn read(line: &[u8], k: usize) -> Option<Fate>
    requires { k ≤ 4 }
{
    let kind = number::decimal(line::field(line, k))?;
    let w = number::decimal(line::field(line, k + 1))?;
    let left_as = number::decimal(line::field(line, k + 2))?;
    fate(kind, w, left_as)
}
