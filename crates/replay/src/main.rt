// Drives the thirteen calls and recoveries through the proved journal. Standard input has a line a command: it hands in a part of the state, which
// prints nothing, or makes a call, whose reply and check sums of all state are a line of standard output; `bad` is printed where a
// line fits no form. The lines, their forms and the output that stdout must equal come from the other implementation
// (twin/src/replay.rs; its replay writes both files).
#![tactic(auto)]

ghost use Rattle.std.specs.Prelude.{◌≤◌};

use crate::memory::Memory;
use std::io;
use std::io::{Read, Write};

mod answer;
mod backups;
mod calls;
mod export;
mod forms;
mod lent;
mod memory;
mod perform;
mod recoveries;

// The longest line that is answered.
const LIMIT: usize = 2000;

// A line as far as it is read. Its length is beside it, as there is no heap; of one that is too long it is one more than can be held.
#[derive(Clone, Copy)]
struct Line {
    bytes: [u8; LIMIT],
    length: usize,
    ghost in_range: { length ≤ 2001 },
}

impl Line {
    fn new() -> Line {
        Line {
            bytes: [0; LIMIT],
            length: 0,
        }
    }

    fn push(&mut self, b: u8) {
        if self.length < LIMIT {
            self.bytes[self.length] = b;
        }
        self.length = (self.length + 1).min(LIMIT + 1);
    }

    // A line that is too long is answered as an empty one, which is bad as well.
    fn text(&self) -> &[u8] {
        if LIMIT < self.length {
            return &[];
        }
        &self.bytes[..self.length]
    }
}

// The answer to a line is written before the next is read.
fn finish(to: &mut impl Write, line: &mut Line, memory: &mut Memory) -> io::Result<()> {
    answer::answer(to, line.text(), memory)?;
    line.length = 0;
    to.flush()
}

// Answers every line.
fn run(
    input: &mut impl Read,
    to: &mut impl Write,
    line: &mut Line,
    memory: &mut Memory,
) -> io::Result<()> {
    for b in input.bytes() {
        match b? {
            b'\n' => finish(to, line, memory)?,
            b => line.push(b),
        }
    }
    if 0 < line.length {
        finish(to, line, memory)?;
    }
    Ok(())
}

fn main(rt: HostRuntime) -> io::Result<()> {
    run(
        &mut rt.stdin(),
        &mut rt.stdout(),
        &mut Line::new(),
        &mut Memory::new(),
    )
}
