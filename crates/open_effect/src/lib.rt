// What open does, once its vote is counted: to the register, the server's record and its lock table.
#![tactic(auto)]

ghost use Rattle.std.specs.Prelude.{◌≡◌, ◌&&◌, not, cond, List, ℕ, ◌<◌, length, replicate};
ghost use Rattle.base.specs.Below.{up_to};
ghost use Rattle.quorum.specs.Vote.{flags_of};
ghost use Rattle.cluster.specs.declared.Records.{Records};
ghost use Rattle.cluster.specs.State.{server_at, entry_at};
ghost use Rattle.cluster.specs.Refusals.{session_differs};
ghost use Rattle.cluster.specs.Effects.{arrives, entry_after, opened_register, opened_server, open_effect};
ghost use Rattle.checks.specs.Results.{state_of, result_of};
ghost use Rattle.register_message.specs.Settled.{settled};
ghost use Rattle.open_effect.specs.Filled.{tables_after};

use ballot::Ballot;
use cluster::{Answer, Closing, Entry, Phase, Register, Server, TABLE};
use fate::Fate;
use register_message::{Registered, does_arrive, is_answered};

// The recorded marks after open: the members' is the ballot's mark, any other 0.
// A mark is of another array at its index, up to R: zip and iter_mut are no plainer.
fn marks_after(b: &Ballot) -> [u64; 7]
    ensures { result ≡ up_to (λ i. cond (flags_of b.now.clean i) b.now.mark 0) (replicate 7 0) b.now.replicas }
{
    let mut marks = [0; 7];
    for i in 0..b.replicas {
        marks[i] = if b.clean[i] { b.mark } else { 0 };
    }
    marks
}

// The register's entry of a replica after open. One that stays is made anew, which is faster than a copy of an enum with its unused bytes.
fn entry_after(e: Entry, clean: bool, session: u64, d: u64) -> Entry
    ensures { result ≡ entry_after e clean session d }
{
    if clean {
        return Entry {
            session,
            closing: Closing::Unresolved,
        };
    }
    Entry {
        session: e.session,
        closing: match e.closing {
            Closing::Unresolved => Closing::Mark(d),
            Closing::Mark(m) => Closing::Mark(m),
            Closing::Restored => Closing::Restored,
        },
    }
}

// An entry is of two arrays at its index, up to R: zip and iter_mut are no plainer.
fn entries_after(before: [Entry; 7], b: &Ballot) -> [Entry; 7]
    ensures { result ≡ up_to (λ i. entry_after (entry_at before i) (flags_of b.now.clean i) b.now.server.now.session b.now.mark) before b.now.replicas }
{
    let mut entries = before;
    for i in 0..b.replicas {
        entries[i] = entry_after(before[i], b.clean[i], b.server.session, b.mark);
    }
    entries
}

// The register after the message, if it arrives and the session is the register's.
fn register_after(g: Register, b: &Ballot, fate: Fate) -> Register
    ensures { result ≡ cond (arrives fate && not (session_differs g b.now.server.now)) (opened_register b.now.replicas g b.now.server.now b.now.mark) g }
{
    if !does_arrive(fate) || g.session != b.server.session {
        return g;
    }
    let entries = entries_after(g.entries, b);
    Register { entries, ..g }
}

fn opened_server(b: &Ballot) -> Server
    ensures { result ≡ opened_server b.now.replicas b.now.server.now b.now.mark }
{
    let known = b.clean;
    let marks = marks_after(b);
    Server {
        phase: Phase::Open,
        known,
        dropped: [false; 7],
        marks,
        start: b.mark,
        issued: b.mark,
        acked: b.mark,
        ..*b.server
    }
}

// What the message leaves of the register, and what the server makes of its answer or of silence.
pub fn opened(g: Register, b: &Ballot, fate: Fate) -> Registered
    ensures { (x : Records) (s : ℕ) (media tables : List ℕ) → x.register ≡ g → server_at x s ≡ b.now.server.now → result_of (settled x s result) media (tables_after s b.now.mark fate tables) ≡ open_effect b.now.replicas b.now.mark (state_of x media tables) s fate }
{
    let register = register_after(g, b, fate);
    if is_answered(fate) {
        return Registered {
            register,
            server: opened_server(b),
            answer: Answer::Value(b.mark),
        };
    }
    Registered {
        register,
        server: servers::idle(),
        answer: Answer::Silent,
    }
}

// A server whose open is answered has a lock table with the mark in every place.
pub fn fill(tables: &mut [u64], i: usize, d: u64, fate: Fate)
    requires { (i < 4) × (length tables.old ≡ 4096) }
    ensures { tables.new ≡ tables_after i d fate tables.old }
{
    if is_answered(fate) {
        let at = i * TABLE;
        locks::fill_table(&mut tables[at..at + TABLE], d);
    }
}
