// What a replica is asked to do, as a line says it.
ghost use Rattle.std.specs.Prelude.{◌≡◌, true, ◌≤◌, length};
ghost use Rattle.storage.specs.Operations.{HasPlace};

use crate::fields::{Failure, Line};
use storage::operation::{Operation, Target};

// The commands that change a medium.
#[derive(Clone, Copy, PartialEq, Eq)]
pub enum Change {
    Prepare,
    Append,
    Truncate,
    Note,
}

impl Change {
    // Where the fields of the fate begin.
    pub fn fate_field(self) -> usize
        ensures { result ≤ 4 }
    {
        match self {
            Change::Append | Change::Truncate => 3,
            Change::Prepare | Change::Note => 4,
        }
    }
}

// The operation that the fields before the fate say, on a log with this mark; the bytes of an append go to src.
pub fn read(
    line: &Line<'_>,
    change: Change,
    mark: u64,
    src: &mut [u8],
) -> Result<Operation, Failure>
    ensures { length src.new ≡ length src.old }
{
    let operation = match change {
        // prepare: session, closing part.
        Change::Prepare => Operation::Prepare(line.number(2)?, target(line.number(3)?)),
        // append: BYTES of a place.
        Change::Append => {
            line.bytes(2, src)?;
            Operation::Append(mark)
        }
        // truncate: mark.
        Change::Truncate => Operation::Trim(line.number(2)?),
        // note: low-water mark, local low-water mark.
        Change::Note => Operation::Note(line.number(2)?, line.number(3)?),
    };
    Ok(operation)
}

// 0 if the whole log stays, else the closing mark + 1.
fn target(n: u64) -> Target {
    match n {
        0 => Target::Whole,
        _ => Target::Mark(n - 1),
    }
}

// A full log takes no record.
pub fn has_place(op: Operation, places: u64) -> bool
    ensures { result ≡ true → HasPlace places op }
{
    match op {
        Operation::Append(n) => n < places,
        Operation::Prepare(_, _) | Operation::Trim(_) | Operation::Note(_, _) => true,
    }
}
