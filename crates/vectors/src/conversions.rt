// An old medium converted: into a second slice of a given length, whose bytes are all one number before the call.
use crate::fields::{Failure, Line};
use crate::records;
use run_lines::print;
use std::io::Write;

// The longest second slice: longer than any medium.
const LONGEST: usize = 73000;

// The longest old medium.
const BEFORE: usize = 65536;

// convert, BYTES, LENGTH, FILL.
pub fn convert(to: &mut impl Write, line: &Line<'_>) -> Result<(), Failure> {
    let size = line.up_to(2, LONGEST)?;
    let fill = line.up_to(3, 255)?;
    let n = line.length(1, BEFORE)?;
    let mut before = [0u8; BEFORE];
    let mut after = [fill as u8; LONGEST];
    let before = &mut before[..n];
    let after = &mut after[..size];
    line.bytes(1, before)?;
    records::print_reply(to, converter::convert::convert(before, after))?;
    print::text(to, b"\t")?;
    records::print_crc(to, line, after)
}
