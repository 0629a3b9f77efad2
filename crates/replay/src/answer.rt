// The answer to a line.
use crate::export::Export;
use crate::forms::Kind;
use crate::memory::Memory;
use crate::recoveries::Recovery;
use crate::{calls, export, forms, lent, perform, recoveries};
use cluster::Call;
use replay_state::lines;
use run_lines::print;
use std::io;
use std::io::Write;

// What a line asks for; of one that hands something in there is nothing left to do. That stays a case: an Option in an Option is no plainer.
#[derive(Clone, Copy)]
enum Asked {
    Call(Call),
    Export(Export),
    Recovery(Recovery),
    Nothing,
}

// What a line hands in is held from now on; `None` where it fits no form.
fn read(line: &[u8], memory: &mut Memory) -> Option<Asked> {
    let asked = match forms::kind_of(line)? {
        Kind::Call(name) => Asked::Call(calls::read(line, name)?),
        Kind::Export => Asked::Export(export::read(line)?),
        Kind::Recover => Asked::Recovery(recoveries::read(line)?),
        Kind::Part(part) => {
            lines::hand_in(line, part, &mut memory.state)?;
            Asked::Nothing
        }
        Kind::Lent(slice) => {
            lent::hand_in(line, slice, memory)?;
            Asked::Nothing
        }
    };
    Some(asked)
}

// Makes the call that a line asks for, or takes what it hands in.
pub fn answer(to: &mut impl Write, line: &[u8], memory: &mut Memory) -> io::Result<()> {
    match read(line, memory) {
        Some(Asked::Call(call)) => perform::without_files(to, call, memory),
        Some(Asked::Export(export)) => export::make(to, export, memory),
        Some(Asked::Recovery(recovery)) => recoveries::make(to, recovery, memory),
        Some(Asked::Nothing) => Ok(()),
        None => print::text(to, b"bad\n"),
    }
}
