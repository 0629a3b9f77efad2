// Checks, places and slots: their bytes read, and written from their fields.
ghost use Rattle.std.specs.Prelude.{◌≡◌, ◌≤◌, length};
ghost use Rattle.storage.specs.Sizes.{place_size, data_limit};
ghost use Rattle.storage.specs.Places.{size_of};

use crate::fields::{Failure, Line};
use run_lines::print;
use std::io;
use std::io::Write;
use storage::place::Fields;
use storage::sizes::{DATA_AT, DATA_LIMIT, PLACE, SLOT};
use storage::slot::Slot;

// The most bytes of a check.
const LONGEST: usize = 4096;

// crc, BYTES.
pub fn crc(to: &mut impl Write, line: &Line<'_>) -> Result<(), Failure> {
    let n = line.length(1, LONGEST)?;
    let mut b = [0u8; LONGEST];
    let b = &mut b[..n];
    line.bytes(1, b)?;
    print_crc(to, line, b)
}

// The check of b, in digits.
pub fn print_crc(to: &mut impl Write, line: &Line<'_>, b: &[u8]) -> Result<(), Failure> {
    let crc = crc32::crc(line.tables, b);
    print::digits(to, &crc.to_be_bytes())?;
    Ok(())
}

// ok, or no and the number.
pub fn print_reply<E: Drop>(to: &mut impl Write, r: Result<(), E>) -> io::Result<()>
where
    u64: From<E>,
{
    match r {
        Ok(()) => print::text(to, b"ok"),
        Err(why) => {
            print::text(to, b"no")?;
            print::next(to, u64::from(why))
        }
    }
}

// place, n, BYTES.
pub fn place(to: &mut impl Write, line: &Line<'_>) -> Result<(), Failure> {
    let n = line.number(1)?;
    let mut b = [0u8; PLACE];
    line.bytes(2, &mut b)?;
    if place_reader::valid(line.tables, &b, n) {
        tell(to, &b)?;
    } else {
        print::text(to, b"0")?;
    }
    Ok(())
}

// The fields of a valid place, the length of its data, and these.
fn tell(to: &mut impl Write, b: &[u8]) -> io::Result<()>
    requires b_len { length b.now ≡ place_size }
    requires b_bound { size_of b.now ≤ data_limit }
{
    let Fields {
        id,
        client,
        generation,
        partition,
        sequence,
        header,
    } = place_reader::decode(b);
    let n = place_reader::data_length(b);
    write!(
        to,
        "1\t{id}\t{client}\t{generation}\t{partition}\t{sequence}\t{header}\t{n}\t"
    )?;
    print::digits(to, &b[DATA_AT..DATA_AT + n as usize])
}

// slot, BYTES.
pub fn slot(to: &mut impl Write, line: &Line<'_>) -> Result<(), Failure> {
    let mut b = [0u8; SLOT];
    line.bytes(1, &mut b)?;
    if slots::valid(line.tables, &b) {
        print::text(to, b"1")?;
        held(to, slots::read(&b))?;
    } else {
        print::text(to, b"0")?;
    }
    Ok(())
}

// The numbers of a slot, behind others.
pub fn held(to: &mut impl Write, slot: Slot) -> io::Result<()> {
    let Slot {
        promise,
        low,
        local,
    } = slot;
    write!(to, "\t{promise}\t{low}\t{local}")
}

// A record's numbers, if their fields have them.
fn numbers(line: &Line<'_>) -> Result<Fields, Failure> {
    Ok(Fields {
        id: line.number(1)?,
        client: line.word(2)?,
        generation: line.word(3)?,
        partition: line.word(4)?,
        sequence: line.number(5)?,
        header: line.word(6)?,
    })
}

// record, ID, client, generation, partition, sequence, header, DATA.
pub fn record(to: &mut impl Write, line: &Line<'_>) -> Result<(), Failure> {
    let fields = numbers(line)?;
    let n = line.length(7, DATA_LIMIT)?;
    let mut d = [0u8; DATA_LIMIT];
    let d = &mut d[..n];
    line.bytes(7, d)?;
    let mut out = [0u8; PLACE];
    place_writer::encode(line.tables, &mut out, fields, d);
    print::digits(to, &out)?;
    Ok(())
}

// slotof, promise, low-water mark, local low-water mark.
pub fn slot_of(to: &mut impl Write, line: &Line<'_>) -> Result<(), Failure> {
    let slot = Slot {
        promise: line.number(1)?,
        low: line.number(2)?,
        local: line.number(3)?,
    };
    let mut out = [0u8; SLOT];
    slots::encode(line.tables, &mut out, slot);
    print::digits(to, &out)?;
    Ok(())
}
