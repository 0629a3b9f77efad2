// Check sums: of numbers as eight big-endian bytes each.
ghost use Rattle.std.specs.Prelude.{◌≤◌};

use cluster::{Closing, Entry, Phase, Records, Register, Server};
use crc32::Tables;
use storage::sizes::LONG;

// Room for the bytes of all lock tables that may be lent.
const ROOM: usize = 65536;

// The bytes of all records: the register's 23 numbers, and 113 of each of the four servers.
const RECORDS: usize = LONG * (23 + 4 * 113);

// The tables are made for each sum: to lend them through the whole program is not worth its proofs.
pub fn of_bytes(b: &[u8]) -> u32 {
    let t = Tables::new();
    crc32::crc(&t, b)
}

// 0 where there are more than there is room for.
pub fn of(numbers: &[u64]) -> u32 {
    let mut out = [0u8; ROOM];
    if ROOM / LONG < numbers.len() {
        return 0;
    }
    for (bytes, v) in out.chunks_exact_mut(LONG).zip(numbers) {
        bytes.copy_from_slice(&v.to_be_bytes());
    }
    of_bytes(&out[..LONG * numbers.len()])
}

// The bytes of records, one behind the other. Their length is beside them, as there is no heap for a `Vec`.
#[derive(Clone, Copy)]
struct Written {
    bytes: [u8; RECORDS],
    size: usize,
    ghost has_room: { size ≤ 3800 },
}

impl Written {
    // Bytes for which there is no room are left out.
    fn put(&mut self, b: &[u8]) {
        if b.len() <= RECORDS - self.size {
            let end = self.size + b.len();
            self.bytes[self.size..end].copy_from_slice(b);
            self.size = end;
        }
    }

    fn put_number(&mut self, v: u64) {
        self.put(&v.to_be_bytes());
    }

    // Session; 0 unresolved, 1 closed, 2 restored; closing mark.
    fn put_entries(&mut self, entries: &[Entry; 7]) {
        for entry in entries {
            let (closing, mark) = match entry.closing {
                Closing::Unresolved => (0, 0),
                Closing::Mark(v) => (1, v),
                Closing::Restored => (2, 0),
            };
            self.put_number(entry.session);
            self.put_number(closing);
            self.put_number(mark);
        }
    }

    // Standing and recorded mark of each replica.
    fn put_replicas(&mut self, server: &Server) {
        let standings = server.known.iter().zip(&server.dropped);
        for ((known, dropped), mark) in standings.zip(&server.marks) {
            self.put_number(standing(*known, *dropped));
            self.put_number(*mark);
        }
    }

    fn put_register(&mut self, register: &Register) {
        self.put_number(register.session);
        self.put_number(register.generation as u64);
        self.put_entries(&register.entries);
    }

    fn put_server(&mut self, server: &Server) {
        self.put_number(phase(server.phase));
        self.put_number(server.session);
        self.put_number(server.generation as u64);
        self.put_number(server.start);
        self.put_number(server.issued);
        self.put_number(server.acked);
        self.put_entries(&server.entries);
        self.put_replicas(server);
        self.put(&server.held);
    }
}

// 0 idle, 1 opening, 2 open.
fn phase(p: Phase) -> u64 {
    match p {
        Phase::Idle => 0,
        Phase::Opening => 1,
        Phase::Open => 2,
    }
}

// 0 out, 1 in, 2 dropped; 3 for one that is dropped and not known, which no call makes.
fn standing(known: bool, dropped: bool) -> u64 {
    match (known, dropped) {
        (false, false) => 0,
        (true, false) => 1,
        (true, true) => 2,
        (false, true) => 3,
    }
}

pub fn of_records(records: &Records) -> u32 {
    let mut written = Written {
        bytes: [0; RECORDS],
        size: 0,
    };
    written.put_register(&records.register);
    for server in &records.servers {
        written.put_server(server);
    }
    of_bytes(&written.bytes[..written.size])
}
