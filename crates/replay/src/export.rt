// export, server, replica, FATE, time, length of the data file, length of the index file, KEY: the call with two files, each byte of which is AA before it.
// Their check sums after it stand behind the others.
use crate::memory::Memory;
use crate::perform;
use crate::perform::Files;
use cluster::Call;
use replay_state::{fields, sums};
use run_lines::{digits, fates, print};
use segment::header::Stamp;
use std::io;
use std::io::Write;
use text::line;

// The most bytes that are lent, some more than any cluster here fills.
const DATA: usize = 1200;

const INDEX: usize = 300;

const UNTOUCHED: u8 = 170;

// What a line asks for: the call, what stands in the headers, and the lengths of the files.
#[derive(Clone, Copy)]
pub struct Export {
    call: Call,
    stamp: Stamp,
    data: usize,
    index: usize,
}

// `None` where its fate, its key or a length does not fit.
pub fn read(line: &[u8]) -> Option<Export> {
    let fate = fates::read(line, 3)?;
    let mut key = [0u8; 16];
    if !digits::read(line::field(line, 9), &mut key) {
        return None;
    }
    Some(Export {
        call: Call::Export(fields::at(line, 1), fields::at(line, 2), fate),
        stamp: Stamp {
            time: fields::at(line, 6),
            key,
        },
        data: fields::up_to(line, 7, DATA)?,
        index: fields::up_to(line, 8, INDEX)?,
    })
}

pub fn make(to: &mut impl Write, export: Export, memory: &mut Memory) -> io::Result<()> {
    let mut all_data = [UNTOUCHED; DATA];
    let mut all_index = [UNTOUCHED; INDEX];
    let data = &mut all_data[..export.data.min(DATA)];
    let index = &mut all_index[..export.index.min(INDEX)];
    let files = Files {
        stamp: export.stamp,
        data: &mut *data,
        index: &mut *index,
    };
    perform::perform(to, export.call, files, memory)?;
    perform::print_sum(to, sums::of_bytes(data))?;
    perform::print_sum(to, sums::of_bytes(index))?;
    print::text(to, b"\n")
}
