// Segment files: a log written out as a pair, and a pair imported. TIME and KEY are what is handed in for the headers.
ghost use Rattle.std.specs.Prelude.{◌≡◌, ◌≤◌, length};
ghost use Rattle.storage.specs.Sizes.{medium_size};
ghost use Rattle.storage.specs.Log.{places_from};
ghost use Rattle.segment.specs.Pair.{data_size, index_size};

use crate::fields::{Failure, Line};
use crate::media::MOST;
use crate::records;
use run_lines::print;
use segment::header::{HEADER, Stamp};
use segment::pair::OFFSET;
use segment::record::LEAST;
use segment_writer::Log;
use std::io;
use std::io::Write;
use storage::sizes::{DATA_LIMIT, medium_size};

// The most bytes of a medium or a file that a line hands in.
const LONGEST: usize = 4096;

// The longest files of so many places.
const DATA: usize = HEADER + 14 * (LEAST + DATA_LIMIT);

const INDEX: usize = HEADER + 14 * OFFSET;

// pair, TIME, KEY, N, MEDIUM.
pub fn pair(to: &mut impl Write, line: &Line<'_>) -> Result<(), Failure> {
    let stamp = line.stamp(1)?;
    let places = line.up_to(3, MOST)?;
    let mut m = [0u8; LONGEST];
    let m = &mut m[..medium_size(places as u64)];
    line.bytes(4, m)?;
    write_out(to, line, stamp, m, places)?;
    Ok(())
}

// The whole log of a medium.
fn write_out(
    to: &mut impl Write,
    line: &Line<'_>,
    stamp: Stamp,
    m: &[u8],
    places: usize,
) -> io::Result<()>
    requires m_len { length m.now ≡ medium_size places }
    requires places_bound { places ≤ 14 }
{
    let k = scan::mark(line.tables, m, places);
    let log = Log {
        medium: m,
        places: k,
    };
    let mut file = [0u8; DATA];
    let mut index = [0u8; INDEX];
    let size = log.data_size();
    let end = HEADER + OFFSET * k;
    print_pair(to, line, stamp, log, &mut file[0..size], &mut index[0..end])
}

// Each parameter by itself: a struct of them would be made for this one call.
fn print_pair(
    to: &mut impl Write,
    line: &Line<'_>,
    stamp: Stamp,
    log: Log,
    file: &mut [u8],
    index: &mut [u8],
) -> io::Result<()>
    requires file_len { (length file.old ≡ data_size (places_from log.places 1 log.medium.now)) × (length file.old ≤ 1136) }
    requires index_len { (length index.old ≡ index_size log.places) × (log.places ≤ 14) }
{
    log.write_pair(line.tables, file, index, stamp);
    print::digits(to, file)?;
    print::text(to, b"\t")?;
    print::digits(to, index)
}

// import, N, TIME, KEY, MEDIUM, DATA, INDEX. The medium and the two files are each as long as its field says.
pub fn import(to: &mut impl Write, line: &Line<'_>) -> Result<(), Failure> {
    let n = line.number(1)?;
    let stamp = line.stamp(2)?;
    let a = line.length(4, LONGEST)?;
    let b = line.length(5, LONGEST)?;
    let c = line.length(6, LONGEST)?;
    let mut m = [0u8; LONGEST];
    let mut file = [0u8; LONGEST];
    let mut index = [0u8; LONGEST];
    let (m, file, index) = (&mut m[..a], &mut file[..b], &mut index[..c]);
    line.bytes(4, m)?;
    line.bytes(5, file)?;
    line.bytes(6, index)?;
    records::print_reply(to, segment_import::import::import(n, m, stamp, file, index))?;
    print::text(to, b"\t")?;
    records::print_crc(to, line, m)
}
