// Which command a line is, and its answer.
use crate::fields::{Failure, Line};
use crate::operation::Change;
use crate::{conversions, media, records, segments};
use std::io::Write;
use text::line;

#[derive(Clone, Copy, PartialEq, Eq)]
enum Command {
    Crc,
    Place,
    Slot,
    Record,
    SlotOf,
    Medium,
    Change(Change),
    Pair,
    Import,
    Convert,
}

// A word's command, and how many fields its lines have.
fn form_of(word: &[u8]) -> Option<(Command, usize)> {
    let form = match word {
        b"crc" => (Command::Crc, 2),
        b"place" => (Command::Place, 3),
        b"slot" => (Command::Slot, 2),
        b"record" => (Command::Record, 8),
        b"slotof" => (Command::SlotOf, 4),
        b"medium" => (Command::Medium, 3),
        b"prepare" => (Command::Change(Change::Prepare), 9),
        b"append" => (Command::Change(Change::Append), 8),
        b"truncate" => (Command::Change(Change::Truncate), 8),
        b"note" => (Command::Change(Change::Note), 9),
        b"pair" => (Command::Pair, 5),
        b"import" => (Command::Import, 7),
        b"convert" => (Command::Convert, 4),
        _ => return None,
    };
    Some(form)
}

// Prints the answer, or nothing where the line has no vector's form.
pub fn answer(to: &mut impl Write, line: &Line<'_>) -> Result<(), Failure> {
    let Some((command, count)) = form_of(line.field(0)) else {
        return Err(Failure::Unfit);
    };
    if line::count(line.text) != count {
        return Err(Failure::Unfit);
    }
    match command {
        Command::Crc => records::crc(to, line),
        Command::Place => records::place(to, line),
        Command::Slot => records::slot(to, line),
        Command::Record => records::record(to, line),
        Command::SlotOf => records::slot_of(to, line),
        Command::Medium => media::read(to, line),
        Command::Change(change) => media::change(to, line, change),
        Command::Pair => segments::pair(to, line),
        Command::Import => segments::import(to, line),
        Command::Convert => conversions::convert(to, line),
    }
}
