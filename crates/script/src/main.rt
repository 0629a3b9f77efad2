// The script program: reads lines of calls from standard input and writes a reply to each. What the bytes of the input make of the
// program and of its replies is proved (crate interpreter); this reads and writes them.
#![tactic(auto)]

ghost use Rattle.std.specs.Prelude.{◌≡◌, ◌≤◌, length, IfOk};
ghost use Rattle.answers.specs.Sizes.{line_room};

use interpreter::program::{PIECE, Running};
use std::io::{Read, Write};
use std::process::ExitCode;
use std::{fmt, io};

// What ends the program before its input ends: a line on standard error says it, and nothing is read or written after it.
#[derive(Drop)]
enum Failure {
    Input,
    Output,
}

impl fmt::Display for Failure {
    fn fmt<W: fmt::Write>(&self, f: &mut fmt::Formatter<W>) -> fmt::Result {
        match self {
            Failure::Input => write!(f, "standard input cannot be read"),
            Failure::Output => write!(f, "standard output cannot be written"),
        }
    }
}

// Writes the replies, in as many writes as that takes.
fn write(to: &mut impl Write, replies: &[u8]) -> Result<(), Failure> {
    to.write_all(replies).map_err(|_| Failure::Output)
}

// The next piece of input, in front in what is lent: how many bytes it has, 0 where the input has ended.
fn read(input: &mut impl Read, chunk: &mut [u8]) -> Result<usize, Failure>
    ensures { IfOk result (λ n. n ≤ length chunk.old) }
{
    input.read(chunk).map_err(|_| Failure::Input)
}

// Reads to the end of the input, and writes the replies to each piece; a last line may have no newline. A proved loop has to end, and nothing
// says that the input does: so it counts its turns up, to a number that no run comes to.
fn run(input: &mut impl Read, to: &mut impl Write, running: &mut Running) -> Result<(), Failure>
    requires n_bound { running.old.n ≤ line_room }
    requires o_value { running.old.o ≡ 0 }
{
    let mut chunk = [0u8; PIECE];
    for _ in 0..u64::MAX {
        let n = read(input, &mut chunk)?;
        if n == 0 {
            running.finish();
            return write(to, running.replies());
        }
        running.feed(&chunk[..n]);
        write(to, running.replies())?;
        running.empty();
    }
    Ok(())
}

fn main(rt: HostRuntime) -> io::Result<ExitCode> {
    let mut running = Running::start();
    match run(&mut rt.stdin(), &mut rt.stdout(), &mut running) {
        Ok(()) => Ok(ExitCode::SUCCESS),
        Err(why) => {
            eprintln!(rt; "script: {why}")?;
            Ok(ExitCode::FAILURE)
        }
    }
}
