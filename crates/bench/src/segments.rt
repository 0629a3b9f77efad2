// An export of 1,000 places with 28 bytes of data each, and an import of that pair.
use crate::stage::{Files, MEDIUM, Stage};
use crate::turns;
use crate::turns::total_of;
use cluster::{Call, Records};
use fate::Fate;
use segment::header::{HEADER, KEY_AT, Stamp};
use segment::pair::OFFSET;
use segment::record::LEAST;
use storage::sizes::{DATA_LIMIT, LONG, PLACE, SLOTS};

// The files of 1,000 places.
const DATA: usize = HEADER + 1000 * (LEAST + DATA_LIMIT);

const INDEX: usize = HEADER + 1000 * OFFSET;

// The lowest byte of the time in a data file's header, the last of the last offset, and the lowest of the ID in place 1,000.
const TIME_BYTE: usize = KEY_AT - 1;

const LAST_BYTE: usize = INDEX - 1;

const ID_BYTE: usize = SLOTS + 999 * PLACE + LONG - 1;

fn export(stage: &mut Stage, r: Records, time: u64, data: &mut [u8], index: &mut [u8]) {
    let files = Files { time, data, index };
    stage.make_with(r, Call::Export(0, 0, Fate::Answered), files);
}

// The time that is handed in differs from turn to turn.
pub fn exports(stage: &mut Stage, count: u64) -> u64 {
    let mut data = [0u8; DATA];
    let mut index = [0u8; INDEX];
    let r = stage.fill(1000);
    total_of(count, |time| {
        export(stage, r, time, &mut data, &mut index);
        turns::sum_of(data[TIME_BYTE], index[LAST_BYTE])
    })
}

// A byte of a slot differs from turn to turn; the places are wiped again, which counts.
pub fn imports(stage: &mut Stage, count: u64) -> u64 {
    let mut data = [0u8; DATA];
    let mut index = [0u8; INDEX];
    let r = stage.fill(1000);
    export(stage, r, 0, &mut data, &mut index);
    let stamp = Stamp {
        time: 0,
        key: [0; 16],
    };
    let mut medium = [0u8; MEDIUM];
    total_of(count, |turn| {
        medium[0] = turns::byte_of(turn);
        let _ = segment_import::import::import(1000, &mut medium, stamp, &data, &index);
        let id = medium[ID_BYTE] as u64;
        turns::wipe_places(&mut medium);
        id
    })
}
