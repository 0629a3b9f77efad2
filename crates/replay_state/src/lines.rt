// Lines whose numbers or bytes become what is held. A line that does not fit changes nothing.
ghost use Rattle.std.specs.Prelude.{◌≤◌};

use crate::fields;
use crate::state::{LOCKS, State};
use cluster::{Closing, Entry, Phase, REPLICAS, Register, SERVERS, Server, WINDOW};
use run_lines::digits;
use storage::sizes::{PLACE, Place};
use text::line;

// What a line hands in. ENTRY stands for session; 0 unresolved, 1 closed or 2 restored; closing mark.
#[derive(Clone, Copy, PartialEq, Eq)]
pub enum Part {
    // shape, R, N, K.
    Shape,
    // register, session, generation.
    Register,
    // entry, replica, ENTRY: of the register.
    Entry,
    // server, number, phase, session, generation, starting, issued and acknowledged mark.
    Server,
    // handed, server, replica, ENTRY: an entry that take handed over.
    Handed,
    // replica, server, replica, standing, recorded mark.
    Replica,
    // locks, and each of up to 8.
    Locks,
    // held, server, index (0 the oldest to 7 the newest), BYTES of a place: a record that it holds.
    Held,
    // given, BYTES of a place.
    Given,
    // data, BYTES: up to as many as a place has.
    Data,
}

// ENTRY from field k on.
fn entry(line: &[u8], k: usize) -> Option<Entry>
    requires { k ≤ 8 }
{
    let closing = match fields::at(line, k + 1) {
        0 => Closing::Unresolved,
        1 => Closing::Mark(fields::at(line, k + 2)),
        2 => Closing::Restored,
        _ => return None,
    };
    Some(Entry {
        session: fields::at(line, k),
        closing,
    })
}

// 0 idle, 1 opening, else open.
fn phase(n: u64) -> Phase {
    match n {
        0 => Phase::Idle,
        1 => Phase::Opening,
        _ => Phase::Open,
    }
}

// The place whose digits field k has.
fn place(line: &[u8], k: usize) -> Option<Place> {
    let mut b = [0u8; PLACE];
    if digits::read(line::field(line, k), &mut b) {
        return Some(b);
    }
    None
}

fn put_register(line: &[u8], register: &mut Register) -> Option<()> {
    register.generation = fields::word(line, 2)?;
    register.session = fields::at(line, 1);
    Some(())
}

// The entry of the replica that field k names.
fn put_entry(line: &[u8], k: usize, entries: &mut [Entry; REPLICAS]) -> Option<()>
    requires { k ≤ 2 }
{
    let i = fields::below(line, k, REPLICAS)?;
    entries[i] = entry(line, k + 1)?;
    Some(())
}

fn put_server(line: &[u8], server: &mut Server) -> Option<()> {
    server.generation = fields::word(line, 4)?;
    server.phase = phase(fields::at(line, 2));
    server.session = fields::at(line, 3);
    server.start = fields::at(line, 5);
    server.issued = fields::at(line, 6);
    server.acked = fields::at(line, 7);
    Some(())
}

// A standing is 0 out, 1 in, else dropped.
fn put_replica(line: &[u8], server: &mut Server) -> Option<()> {
    let i = fields::below(line, 2, REPLICAS)?;
    let standing = fields::at(line, 3);
    server.known[i] = 0 < standing;
    server.dropped[i] = 1 < standing;
    server.marks[i] = fields::at(line, 4);
    Some(())
}

fn put_held(line: &[u8], server: &mut Server) -> Option<()> {
    let i = fields::below(line, 2, WINDOW as usize)?;
    let b = place(line, 3)?;
    server.held[PLACE * i..PLACE * i + PLACE].copy_from_slice(&b);
    Some(())
}

// What a line says of the server that field 1 names.
fn put_of_server(line: &[u8], part: Part, state: &mut State) -> Option<()> {
    let i = fields::below(line, 1, SERVERS)?;
    let server = &mut state.records.servers[i];
    match part {
        Part::Handed => put_entry(line, 2, &mut server.entries),
        Part::Replica => put_replica(line, server),
        Part::Held => put_held(line, server),
        _ => put_server(line, server),
    }
}

fn put_locks(line: &[u8], state: &mut State) -> Option<()> {
    let n = line::count(line);
    if n < 1 || LOCKS + 1 < n {
        return None;
    }
    for (i, lock) in state.locks.iter_mut().enumerate() {
        *lock = fields::at(line, i + 1);
    }
    state.count = n - 1;
    Some(())
}

fn put_data(line: &[u8], state: &mut State) -> Option<()> {
    let s = line::field(line, 1);
    let n = s.len() / 2;
    let mut b = [0u8; PLACE];
    if PLACE < n || !digits::read(s, &mut b[..n]) {
        return None;
    }
    state.data = b;
    state.size = n;
    Some(())
}

// What a line hands in is held from now on; `None` where the line does not fit.
pub fn hand_in(line: &[u8], part: Part, state: &mut State) -> Option<()> {
    match part {
        Part::Shape => state.shape = fields::shape(line),
        Part::Register => put_register(line, &mut state.records.register)?,
        Part::Entry => put_entry(line, 1, &mut state.records.register.entries)?,
        Part::Server | Part::Handed | Part::Replica | Part::Held => put_of_server(
            line, part, state,
        )?,
        Part::Locks => put_locks(line, state)?,
        Part::Given => state.given = place(line, 1)?,
        Part::Data => put_data(line, state)?,
    }
    Some(())
}
