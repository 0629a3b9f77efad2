// recover, server, length, index, LISTED, FATES: a recovery. LISTED and FATES are the digits of numbers of eight bytes each: the listed replicas, and what stands
// for each fate. So many bytes as `length` says are lent beside the fates: for the fate at `index` those of the last given line, and zeros for the others. The
// count of calls stands behind the reply.
use crate::memory::{MEDIA, Memory, TABLES};
use crate::perform;
use recovery::Recovered;
use replay_state::fields;
use run_lines::{digits, print};
use std::io;
use std::io::Write;
use storage::sizes::{LONG, PLACE};
use text::line;

// The most replicas and fates of a line, and the bytes of so many fates.
const LISTED: usize = 10;

const FATES: usize = 40;

const BESIDE: usize = FATES * PLACE;

// The digits of a number.
const DIGITS: usize = 2 * LONG;

// Up to N numbers, in front, as there is no heap for a `Vec`.
#[derive(Clone, Copy)]
struct Numbers<const N: usize> {
    all: [u64; N],
    count: usize,
}

impl<const N: usize> Numbers<N> {
    // The numbers whose digits s has: none where these are no digits of numbers, or of more than N.
    fn read(s: &[u8]) -> Option<Numbers<N>> {
        let count = s.len() / DIGITS;
        if N < count || s.len() % DIGITS != 0 {
            return None;
        }
        let mut all = [0u64; N];
        for (v, spelled) in all.iter_mut().zip(s.chunks_exact(DIGITS)) {
            let mut b = [0u8; LONG];
            if !digits::read(spelled, &mut b) {
                return None;
            }
            *v = u64::from_be_bytes(b);
        }
        Some(Numbers { all, count })
    }

    fn as_slice(&self) -> &[u64] {
        &self.all[..self.count.min(N)]
    }
}

// What a line asks for.
#[derive(Clone, Copy)]
pub struct Recovery {
    server: u64,
    length: usize,
    index: usize,
    listed: Numbers<LISTED>,
    fates: Numbers<FATES>,
}

// `None` where its numbers do not fit.
pub fn read(line: &[u8]) -> Option<Recovery> {
    Some(Recovery {
        server: fields::at(line, 1),
        length: fields::up_to(line, 2, BESIDE)?,
        index: fields::below(line, 3, FATES)?,
        listed: Numbers::read(line::field(line, 4))?,
        fates: Numbers::read(line::field(line, 5))?,
    })
}

// The slices are lent at the lengths that are held.
fn recover(recovery: &Recovery, given: &[u8], memory: &mut Memory) -> Recovered {
    let Memory {
        media,
        tables,
        state,
        ..
    } = memory;
    let (media, tables) = (&mut media[..], &mut tables[..]);
    driver::recover(
        state.shape,
        state.records,
        &mut media[..state.lent.media.min(MEDIA)],
        &mut tables[..state.lent.tables.min(TABLES)],
        recovery.server,
        recovery.listed.as_slice(),
        recovery.fates.as_slice(),
        given,
    )
}

// The records that it leaves are held; the reply and the count of calls are printed.
pub fn make(to: &mut impl Write, recovery: Recovery, memory: &mut Memory) -> io::Result<()> {
    let mut beside = [0u8; BESIDE];
    let at = PLACE * recovery.index.min(FATES - 1);
    beside[at..at + PLACE].copy_from_slice(&memory.state.given);
    let given = &beside[..recovery.length.min(BESIDE)];
    let outcome = recover(&recovery, given, memory);
    memory.state.records = outcome.records;
    perform::print_answer(to, outcome.answer)?;
    print::next(to, outcome.calls)?;
    perform::print_sums(to, memory)?;
    print::text(to, b"\n")
}
