// Work to be timed from outside. Each line of standard input names a job and how often it is done; the answer to it is one number that
// depends on every turn. Setting the job up takes the same time whatever the count, so the time of one turn is found by two counts.
// What stdout must equal comes from the other implementation (twin/src/jobs.rs), which does the same jobs.
#![tactic(auto)]

ghost use Rattle.std.specs.Prelude.{◌≤◌, length, IfOk};

use crate::jobs::Job;
use crate::stage::Stage;
use std::io;
use std::io::{Read, Write};
use text::{line, number};

mod conversions;
mod jobs;
mod products;
mod segments;
mod stage;
mod turns;

// The most bytes of input that are read.
const LONGEST: usize = 4096;

// What a line asks for, if it has a job's form.
fn answer(text: &[u8], stage: &mut Stage) -> Option<u64> {
    let count = number::decimal(line::field(text, 1))?;
    let job = Job::named(line::first(text))?;
    Some(jobs::total(job, stage, count))
}

// The line that says an answer, or that there is none.
fn say(to: &mut impl Write, answer: Option<u64>) -> io::Result<()> {
    match answer {
        Some(n) => writeln!(to, "{n}"),
        None => writeln!(to, "bad"),
    }
}

// The lines, each ended by a newline.
fn answer_all(to: &mut impl Write, input: &[u8], stage: &mut Stage) -> io::Result<()> {
    for text in input.split_inclusive(|b| *b == b'\n') {
        let text = text.strip_suffix(b"\n").unwrap_or(text);
        say(to, answer(text, stage))?;
    }
    Ok(())
}

// The input, in front in what is lent, as far as there is room: how many bytes it has.
fn read_full(input: &mut impl Read, room: &mut [u8]) -> io::Result<usize>
    ensures { IfOk result (λ n. n ≤ length room.old) }
{
    let mut n = 0;
    for _ in 0..room.len() {
        let got = input.read(&mut room[n..])?;
        if got == 0 {
            break;
        }
        n += got;
    }
    Ok(n)
}

// All the input is read at once.
fn main(rt: HostRuntime) -> io::Result<()> {
    let mut input = [0u8; LONGEST];
    let n = read_full(&mut rt.stdin(), &mut input)?;
    answer_all(&mut rt.stdout(), &input[..n], &mut Stage::new())
}
