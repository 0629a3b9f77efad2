// A call made on what is held, its reply and the check sums after it; the line is ended by whoever asks for it.
use crate::memory::{BACKUP, MEDIA, Memory, TABLES};
use cluster::{Answer, Call, Outcome, Refusal};
use replay_state::sums;
use run_lines::print;
use segment::header::Stamp;
use std::io;
use std::io::Write;
use storage::sizes::Place;

// What an export is lent beside the media.
#[derive(Drop)]
pub struct Files<'a> {
    pub stamp: Stamp,
    pub data: &'a mut [u8],
    pub index: &'a mut [u8],
}

// The lock and its estimate stand behind number 15.
fn print_refusal(to: &mut impl Write, why: Refusal) -> io::Result<()> {
    let number = replies::number_of(why);
    match why {
        Refusal::Locked(lock, estimate) => write!(to, "no\t{number}\t{lock}\t{estimate}"),
        _ => write!(to, "no\t{number}"),
    }
}

pub fn print_answer(to: &mut impl Write, answer: Answer) -> io::Result<()> {
    match answer {
        Answer::Done => print::text(to, b"ok"),
        Answer::Value(v) => write!(to, "ok\t{v}"),
        Answer::Silent => print::text(to, b"silent"),
        Answer::Declined(why) => print_refusal(to, why),
    }
}

// The bytes beside an answer: read's, and zeros beside any other.
fn print_bytes(to: &mut impl Write, b: &Place) -> io::Result<()> {
    if !octets::all_zero(b) {
        print::text(to, b"\t")?;
        print::digits(to, b)?;
    }
    Ok(())
}

pub fn print_sum(to: &mut impl Write, sum: u32) -> io::Result<()> {
    write!(to, "\t{sum:08X}")
}

pub fn print_sums(to: &mut impl Write, memory: &Memory) -> io::Result<()> {
    print_sum(to, sums::of_records(&memory.state.records))?;
    print_sum(to, sums::of_bytes(memory.media()))?;
    print_sum(to, sums::of(memory.tables()))
}

// The call with what lies beside it; the slices are lent at the lengths that are held.
fn apply(call: Call, files: Files<'_>, memory: &mut Memory) -> Outcome {
    let Files { stamp, data, index } = files;
    let Memory {
        media,
        tables,
        backup,
        state,
    } = memory;
    let (media, tables, backup) = (&mut media[..], &mut tables[..], &backup[..]);
    let lent = state.lent;
    let state = &*state;
    apply::apply(
        state.shape,
        state.records,
        &mut media[..lent.media.min(MEDIA)],
        &mut tables[..lent.tables.min(TABLES)],
        call,
        state.data(),
        state.locks(),
        &state.given,
        stamp,
        data,
        index,
        &backup[..lent.backup.min(BACKUP)],
    )
}

// The records that the call leaves are held.
pub fn perform(
    to: &mut impl Write,
    call: Call,
    files: Files<'_>,
    memory: &mut Memory,
) -> io::Result<()> {
    let outcome = apply(call, files, memory);
    memory.state.records = outcome.records;
    print_answer(to, outcome.answer)?;
    print_bytes(to, &outcome.bytes)?;
    print_sums(to, memory)
}

// No other call than an export is lent files.
pub fn without_files(to: &mut impl Write, call: Call, memory: &mut Memory) -> io::Result<()> {
    let files = Files {
        stamp: Stamp {
            time: 0,
            key: [0; 16],
        },
        data: &mut [],
        index: &mut [],
    };
    perform(to, call, files, memory)?;
    print::text(to, b"\n")
}
