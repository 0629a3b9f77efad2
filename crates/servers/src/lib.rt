// A server's record: an idle one, one of the four replaced, and the records that a server holds.
#![tactic(auto)]

pub mod held;

ghost use Rattle.std.specs.Prelude.{◌≡◌, ◌<◌};
ghost use Rattle.cluster.specs.State.{idle_server, put_server};

use cluster::{Closing, Entry, HELD, Phase, Records, Server};

// An idle server's record is all zeros.
pub fn idle() -> Server
    ensures { result ≡ idle_server }
{
    let none = Entry {
        session: 0,
        closing: Closing::Unresolved,
    };
    Server {
        phase: Phase::Idle,
        session: 0,
        generation: 0,
        entries: [none; 7],
        known: [false; 7],
        dropped: [false; 7],
        marks: [0; 7],
        start: 0,
        issued: 0,
        acked: 0,
        held: [0; HELD],
    }
}

// The records with one server replaced.
pub fn put_server(records: Records, i: usize, s: Server) -> Records
    requires { i < 4 }
    ensures { result ≡ put_server records i s }
{
    let mut next = records;
    next.servers[i] = s;
    next
}
