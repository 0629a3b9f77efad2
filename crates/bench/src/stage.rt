// The cluster that the jobs work on: seven replicas of 1,000 places, which one session may fill (K = N), driven by the calls alone.
use crate::turns;
use cluster::{Answer, Call, Outcome, Records, Request, Shape};
use crc32::Tables;
use fate::Fate;
use segment::header::Stamp;
use storage::sizes::{DATA_LIMIT, PLACE, SLOTS};

const SHAPE: Shape = Shape {
    replicas: 7,
    places: 1000,
    interval: 1000,
};

// One medium of 1,000 places, seven of them, four lock tables.
pub const MEDIUM: usize = SLOTS + 1000 * PLACE;

pub const MEDIA: usize = 7 * MEDIUM;

pub const TABLES: usize = 4096;

// What the calls are lent.
#[derive(Drop)]
pub struct Stage {
    pub media: [u8; MEDIA],
    pub tables: [u64; TABLES],
}

// What an export is lent beside it. The key of its headers is all zeros.
#[derive(Drop)]
pub struct Files<'a> {
    pub time: u64,
    pub data: &'a mut [u8],
    pub index: &'a mut [u8],
}

// The data of a record that so many were issued before: they differ from one to the next, so that no scan gains by zeros.
fn data_behind(issued: u64) -> [u8; DATA_LIMIT] {
    let mut out = [0u8; DATA_LIMIT];
    for (i, byte) in out.iter_mut().enumerate() {
        *byte = ((issued % 256 + i as u64) % 256) as u8;
    }
    out
}

// The value of an answer, 0 where it has none.
pub fn value(outcome: Outcome) -> u64 {
    match outcome.answer {
        Answer::Value(v) => v,
        _ => 0,
    }
}

impl Stage {
    pub fn new() -> Stage {
        Stage {
            media: [0; MEDIA],
            tables: [0; TABLES],
        }
    }

    // A fresh cluster.
    pub fn begin(&mut self) -> Records {
        let t = Tables::new();
        let Stage { media, tables } = self;
        fresh::start(&t, SHAPE, media, tables)
    }

    // One call, with a request's data, and without locks and backup.
    fn apply(&mut self, r: Records, call: Call, content: &[u8], files: Files<'_>) -> Outcome {
        let Stage { media, tables } = self;
        let Files { time, data, index } = files;
        let given = [0u8; PLACE];
        let stamp = Stamp { time, key: [0; 16] };
        apply::apply(
            SHAPE,
            r,
            media,
            tables,
            call,
            content,
            &[],
            &given,
            stamp,
            data,
            index,
            &[],
        )
    }

    // A call that no request goes with.
    pub fn make_with(&mut self, r: Records, call: Call, files: Files<'_>) -> Outcome {
        self.apply(r, call, &[], files)
    }

    // The same without files.
    pub fn make(&mut self, r: Records, call: Call) -> Outcome {
        self.make_with(r, call, none())
    }

    // The records that a call leaves.
    pub fn after(&mut self, r: Records, call: Call) -> Records {
        self.make(r, call).records
    }

    // A server's message to every replica: a send or a prepare.
    fn to_all<F: Fn(u64) -> Call>(&mut self, r: Records, message: F) -> Records
        requires { F.IsAlwaysCallable message }
    {
        let mut next = r;
        for i in 0..SHAPE.replicas {
            next = self.after(next, message(i));
        }
        next
    }

    // A server takes the next session and prepares every replica.
    pub fn prepare(&mut self, r: Records, server: u64) -> Records {
        let taken = self.after(r, Call::Take(server, Fate::Answered));
        self.to_all(taken, |i| Call::Prepare(server, i, Fate::Answered))
    }

    // Server 0 issues a record, for a client of the booking system: it has more data than a gate may send.
    pub fn issue(&mut self, r: Records) -> Records {
        let request = Request {
            mark: 0,
            client: 100,
            generation: 0,
            partition: 2,
            sequence: 3,
            header: 4,
        };
        let content = data_behind(r.servers[0].issued);
        self.apply(r, Call::Issue(0, request), &content, none())
            .records
    }

    // Server 0 issues n records, one after another, and sends each to every replica.
    fn store(&mut self, r: Records, n: u64) -> Records {
        let mut next = r;
        for _ in 0..n {
            let issued = self.issue(next);
            next = self.to_all(issued, |i| Call::Send(0, i, Fate::Answered));
        }
        next
    }

    // Server 0 of a fresh cluster opens the first session, and stores n records then.
    pub fn fill(&mut self, n: u64) -> Records {
        let begun = self.begin();
        let prepared = self.prepare(begun, 0);
        let opened = self.after(prepared, Call::Open(0, Fate::Answered));
        self.store(opened, n)
    }

    // The byte of the first medium that differs from turn to turn.
    pub fn mark_turn(&mut self, turn: u64) {
        self.media[0] = turns::byte_of(turn);
    }

    // The last place of the first medium is wiped.
    pub fn wipe_last(&mut self) {
        let media = &mut self.media[..];
        media[turns::LAST_PLACE..MEDIUM].fill(0);
    }

    // The first medium becomes this one.
    pub fn put_back(&mut self, medium: &[u8; MEDIUM]) {
        let media = &mut self.media[..];
        media[..MEDIUM].copy_from_slice(medium);
    }

    // A copy of the first medium.
    pub fn put_by(&self, medium: &mut [u8; MEDIUM]) {
        medium.copy_from_slice(&self.media[..MEDIUM]);
    }
}

// No files.
fn none<'a>() -> Files<'a> {
    Files {
        time: 0,
        data: &mut [],
        index: &mut [],
    }
}
