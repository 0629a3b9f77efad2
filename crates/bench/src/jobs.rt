// The jobs. Each sets a cluster up, and then makes its turn as often as asked. A turn changes a byte that its work does not depend on, or
// undoes what the turn before did, which counts, so that none can be saved; each issue starts from the same records.
use crate::stage::{MEDIUM, Stage};
use crate::turns::{LAST_PLACE, total_of};
use crate::{conversions, products, segments, stage, turns};
use cluster::{Call, Closing, Entry, HELD, Records};
use crc32::Tables;
use fate::Fate;
use servers::put_server;
use storage::sizes::LONG;

#[derive(Clone, Copy, PartialEq, Eq)]
pub enum Job {
    // The CRC of 64 KB.
    Crc,
    // The marks of seven full media.
    Marks,
    // The same by a scan with a product in its loop.
    Products,
    // One send of record 1,000 to a replica that holds 999.
    Send,
    // One prepare that cuts a full log of 1,000 to 500.
    Prepare,
    // One open over seven replicas that all hold 1,000.
    Open,
    // An export of 1,000 places.
    Export,
    // An import of that pair into a wiped medium.
    Import,
    // A conversion of an old medium of 1,000 places.
    Convert,
    // One issue of record 501.
    Issue,
}

impl Job {
    pub fn named(name: &[u8]) -> Option<Job> {
        let job = match name {
            b"crc" => Job::Crc,
            b"marks" => Job::Marks,
            b"products" => Job::Products,
            b"send" => Job::Send,
            b"prepare" => Job::Prepare,
            b"open" => Job::Open,
            b"export" => Job::Export,
            b"import" => Job::Import,
            b"convert" => Job::Convert,
            b"issue" => Job::Issue,
            _ => return None,
        };
        Some(job)
    }
}

// The bytes whose CRC is taken.
const CRC_BYTES: usize = 65536;

fn crc(stage: &mut Stage, count: u64) -> u64 {
    let t = Tables::new();
    stage.begin();
    total_of(count, |turn| {
        stage.mark_turn(turn);
        crc32::crc(&t, &stage.media[..CRC_BYTES]) as u64
    })
}

fn marks(stage: &mut Stage, count: u64) -> u64 {
    let t = Tables::new();
    stage.fill(1000);
    total_of(count, |turn| {
        stage.mark_turn(turn);
        turns::seven_marks(&stage.media, |m| scan::mark(&t, m, 1000))
    })
}

fn products(stage: &mut Stage, count: u64) -> u64 {
    let t = Tables::new();
    stage.fill(1000);
    total_of(count, |turn| {
        stage.mark_turn(turn);
        turns::seven_marks(&stage.media, |m| products::mark(&t, m, 1000))
    })
}

// The record that the turn before sent is wiped.
fn send(stage: &mut Stage, count: u64) -> u64 {
    let filled = stage.fill(999);
    let r = stage.issue(filled);
    total_of(count, |_| {
        stage.wipe_last();
        stage::value(stage.make(r, Call::Send(0, 0, Fate::Answered)))
    })
}

// Server 1 has taken a session in which replica 0 was closed at mark 500.
fn close(stage: &mut Stage, r: Records) -> Records {
    let taken = stage.after(r, Call::Take(1, Fate::Answered));
    let mut s = taken.servers[1];
    s.entries[0] = Entry {
        session: 1,
        closing: Closing::Mark(500),
    };
    put_server(taken, 1, s)
}

// What the turn before cut is put back; the lowest byte of the ID in the last place, which the prepare finds whole, counts.
fn prepare(stage: &mut Stage, count: u64) -> u64 {
    let filled = stage.fill(1000);
    let mut full = [0u8; MEDIUM];
    stage.put_by(&mut full);
    let r = close(stage, filled);
    total_of(count, |_| {
        stage.put_back(&full);
        let id = stage.media[LAST_PLACE + LONG - 1] as u64;
        let value = stage::value(stage.make(r, Call::Prepare(1, 0, Fate::Answered)));
        id.wrapping_add(value)
    })
}

fn open(stage: &mut Stage, count: u64) -> u64 {
    let filled = stage.fill(1000);
    let r = stage.prepare(filled, 1);
    total_of(count, |_| {
        stage::value(stage.make(r, Call::Open(1, Fate::Answered)))
    })
}

// The ID issued last, and the last byte of the newest record held.
fn issue(stage: &mut Stage, count: u64) -> u64 {
    let r = stage.fill(500);
    total_of(count, |_| {
        let s = stage.issue(r).servers[0];
        s.issued.wrapping_add(s.held[HELD - 1] as u64)
    })
}

// What a job done so often comes to.
pub fn total(job: Job, stage: &mut Stage, count: u64) -> u64 {
    match job {
        Job::Crc => crc(stage, count),
        Job::Marks => marks(stage, count),
        Job::Products => products(stage, count),
        Job::Send => send(stage, count),
        Job::Prepare => prepare(stage, count),
        Job::Open => open(stage, count),
        Job::Export => segments::exports(stage, count),
        Job::Import => segments::imports(stage, count),
        Job::Convert => conversions::total(stage, count),
        Job::Issue => issue(stage, count),
    }
}
