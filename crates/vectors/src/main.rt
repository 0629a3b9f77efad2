// Runs stored vectors through the proved code of crc32, fate, the storage layer, segment, segment_import and converter. Standard input has a vector a line; the answer to each
// is a line of standard output, or `bad` where a line has the form of none. The vectors, the form of each line and the answers
// that stdout must equal come from the other implementation (twin/src/vectors.rs; the twin's storage_vectors writes both files).
#![tactic(auto)]

ghost use Rattle.std.specs.Prelude.{◌≤◌};

use crate::fields::{Failure, Line};
use crc32::Tables;
use run_lines::print;
use std::io;
use std::io::{Read, Write};

mod answer;
mod conversions;
mod fields;
mod media;
mod operation;
mod records;
mod segments;

// The longest line that is answered: the digits of an old medium of 1,000 places, and more.
const LIMIT: usize = 130000;

// How many bytes are read at once.
const PIECE: usize = 65536;

// A line as far as it is read. Its length is beside it, as there is no heap; of one that is too long it is one more than can be held.
#[derive(Clone, Copy)]
struct Held {
    bytes: [u8; LIMIT],
    length: usize,
    ghost in_range: { length ≤ 130001 },
}

impl Held {
    fn new() -> Held {
        Held {
            bytes: [0; LIMIT],
            length: 0,
        }
    }

    fn push(&mut self, b: u8) {
        if self.length < LIMIT {
            self.bytes[self.length] = b;
        }
        if self.length <= LIMIT {
            self.length += 1;
        }
    }

    // The answer to the line, and its end; a line that is too long has none.
    fn finish(&mut self, to: &mut impl Write, tables: &Tables) -> io::Result<()> {
        if LIMIT < self.length {
            print::text(to, b"bad\n")?;
        } else {
            print_answer(to, tables, &self.bytes[..self.length])?;
        }
        self.length = 0;
        Ok(())
    }
}

fn print_answer(to: &mut impl Write, tables: &Tables, text: &[u8]) -> io::Result<()> {
    match answer::answer(to, &Line { tables, text }) {
        Ok(()) => print::text(to, b"\n"),
        Err(Failure::Unfit) => print::text(to, b"bad\n"),
        Err(Failure::Unwritten(e)) => Err(e),
    }
}

// The bytes of one read.
fn feed(to: &mut impl Write, tables: &Tables, held: &mut Held, piece: &[u8]) -> io::Result<()> {
    for b in piece {
        if *b == b'\n' {
            held.finish(to, tables)?;
        } else {
            held.push(*b);
        }
    }
    Ok(())
}

// Reads to the end of the input; the answers to what is read at once are written before more is read. A proved loop has to end, and
// nothing says that the input does: so it counts its turns up, to a number that no run comes to. (`bytes` ends by itself, but reads a byte at once.)
fn run(
    input: &mut impl Read,
    to: &mut impl Write,
    tables: &Tables,
    held: &mut Held,
) -> io::Result<()> {
    let mut piece = [0u8; PIECE];
    for _ in 0..u64::MAX {
        let n = input.read(&mut piece)?;
        if n == 0 {
            break;
        }
        feed(to, tables, held, &piece[..n])?;
        to.flush()?;
    }
    if 0 < held.length {
        held.finish(to, tables)?;
    }
    to.flush()
}

fn main(rt: HostRuntime) -> io::Result<()> {
    let tables = Tables::new();
    run(&mut rt.stdin(), &mut rt.stdout(), &tables, &mut Held::new())
}
