// A medium read, and a replica's operations on it. A line has the number of places N behind the command and the medium at its end;
// that of an operation has its fate and the given bytes before the medium.
ghost use Rattle.std.specs.Prelude.{◌≡◌, ◌≤◌, IfOk, length};
ghost use Rattle.storage.specs.Sizes.{medium_size};

use crate::fields::{Failure, Line};
use crate::operation::Change;
use crate::{operation, records};
use fate::Fate;
use run_lines::print;
use std::io::Write;
use storage::sizes;
use storage::sizes::{PLACE, Place};
use storage::slot::Current;

// The most places of a medium: lines and answers stay small.
pub const MOST: usize = 14;

// More bytes than such a medium has.
const LONGEST: usize = 4096;

// Its mark, its current slot and what that holds.
pub fn read(to: &mut impl Write, line: &Line<'_>) -> Result<(), Failure> {
    let places = line.up_to(1, MOST)?;
    let mut m = [0u8; LONGEST];
    let m = &mut m[..sizes::medium_size(places as u64)];
    line.bytes(2, m)?;
    let read = medium::operation::read_medium(line.tables, m, places);
    let mark = read.mark;
    let position = position(read.current);
    write!(to, "{mark}\t{position}")?;
    records::held(to, read.slot)?;
    Ok(())
}

fn position(c: Current) -> u64 {
    match c {
        Current::First => 0,
        Current::Second => 1,
        Current::Neither => 2,
    }
}

// The medium after an operation.
pub fn change(to: &mut impl Write, line: &Line<'_>, change: Change) -> Result<(), Failure> {
    let places = line.up_to(1, MOST)?;
    let mut m = [0u8; LONGEST];
    let m = &mut m[..sizes::medium_size(places as u64)];
    let k = change.fate_field();
    let fate = line.fate(k)?;
    let mut given = [0u8; PLACE];
    line.bytes(k + 3, &mut given)?;
    line.bytes(k + 4, m)?;
    perform(line, change, places, m, &given, fate)?;
    print::digits(to, m)?;
    Ok(())
}

// The operation of a line, on what is read of the medium, by storage's proved code.
fn perform(
    line: &Line<'_>,
    change: Change,
    places: usize,
    m: &mut [u8],
    given: &Place,
    fate: Fate,
) -> Result<(), Failure>
    requires m_len { length m.old ≡ medium_size places }
    ensures { length m.new ≡ length m.old }
{
    let r = medium::operation::read_medium(line.tables, m, places);
    let mut src = [0u8; PLACE];
    let op = operation::read(line, change, r.mark as u64, &mut src)?;
    if !operation::has_place(op, places as u64) {
        return Err(Failure::Unfit);
    }
    medium::operation::perform(line.tables, m, r, op, &src, given, fate);
    Ok(())
}
