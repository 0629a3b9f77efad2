// What the calls of a cluster get and give: shape, register, server records, calls, answers. All are passed by value. There are no functions: those on a
// server's record are in the crate servers.
#![tactic(auto)]

use fate::Fate;
use storage::sizes::{PLACE, Place};

// Numbers, each named once: entries and marks of a record, servers, the marks of a server's lock table and of all four, and the records that a
// server holds, with their bytes.
pub const REPLICAS: usize = 7;

pub const SERVERS: usize = 4;

pub const TABLE: usize = 1024;

pub const TABLES: usize = 4096;

pub const WINDOW: u64 = 8;

pub const HELD: usize = WINDOW as usize * PLACE;

// The last records that a session issued, as places: oldest first, the newest always last.
pub type Held = [u8; HELD];

// R, the number of replicas; N, the places of each medium; K, the checkpoint interval: so many IDs a session may issue.
#[derive(Clone, Copy)]
pub struct Shape {
    pub replicas: u64,
    pub places: u64,
    pub interval: u64,
}

// The closing part of an entry: none yet, the mark at which a later session closed the replica's log, or that its medium was put back from a backup and no
// session has counted it since.
#[derive(Clone, Copy, PartialEq, Eq)]
pub enum Closing {
    Unresolved,
    Mark(u64),
    Restored,
}

// What the register holds of a replica: the session that last set it, and the closing part.
#[derive(Clone, Copy)]
pub struct Entry {
    pub session: u64,
    pub closing: Closing,
}

#[derive(Clone, Copy)]
pub struct Register {
    pub session: u64,
    pub generation: u32,
    pub entries: [Entry; 7],
}

#[derive(Clone, Copy, PartialEq, Eq)]
pub enum Phase {
    Idle,
    Opening,
    Open,
}

// The phases that a call is for.
// A set of phases, not a flag with a value beside it.
#[derive(Clone, Copy)]
pub struct Phases {
    pub idle: bool,
    pub opening: bool,
    pub open: bool,
}

// A server's record. `entries` are those that take handed over. `known`: the replicas known (opening), the members (open);
// `dropped`: members that were silent. `marks` are the recorded marks; `held`, the last eight records issued. An array a field, and no array of replicas:
// hosts fill the fields in, and the definitions (specs/State `member_at`, `active_at`, `mark_at`) and guarantee's theorems name them.
#[derive(Clone, Copy)]
pub struct Server {
    pub phase: Phase,
    pub session: u64,
    pub generation: u32,
    pub entries: [Entry; 7],
    pub known: [bool; 7],
    pub dropped: [bool; 7],
    pub marks: [u64; 7],
    pub start: u64,
    pub issued: u64,
    pub acked: u64,
    pub held: Held,
}

#[derive(Clone, Copy)]
pub struct Records {
    pub register: Register,
    pub servers: [Server; 4],
}

// What a client asks issue for; data and locks lie beside it.
#[derive(Clone, Copy)]
pub struct Request {
    pub mark: u64,
    pub client: u32,
    pub generation: u32,
    pub partition: u32,
    pub sequence: u64,
    pub header: u32,
}

// The thirteen calls. The first number is the server's, then come replicas (copy: from, to) and read's ID; restore has a replica's alone. What holds bytes
// lies beside it, since an enum holds no array: data, locks, the given bytes, for an export the time and key of its headers and its two files, and for a
// restore the medium's bytes.
#[derive(Clone, Copy)]
pub enum Call {
    Take(u64, Fate),
    Prepare(u64, u64, Fate),
    Copy(u64, u64, u64, Fate),
    Trim(u64, u64, Fate),
    Open(u64, Fate),
    Issue(u64, Request),
    Send(u64, u64, Fate),
    Note(u64, u64, Fate),
    Read(u64, u64, u64, Fate),
    Export(u64, u64, Fate),
    Stop(u64),
    Reassign,
    Restore(u64),
}

// Why a call is declined, in the order in which it is checked (document 01's list, and document 02's numbers that join it). UnfitList is a recovery's
// alone (crate driver). Locked: the lock and its estimate.
#[derive(Clone, Copy)]
pub enum Refusal {
    OutsideShape,
    MarkAbovePlaces,
    NoSuchServer,
    NoSuchReplica,
    OtherPhase,
    UnfitList,
    UnfitFate,
    ReplicaOut,
    Undecided,
    TooFewClean,
    OtherGeneration,
    ClientAhead,
    TooMuch,
    HeaderZero,
    Unacknowledged,
    Full,
    CheckpointDue,
    Locked(u64, u64),
    NothingToDo,
    UnfitSource,
    NoSlot,
    OtherPromise,
    OtherMark,
    AtTop,
    OtherSession,
    NoBackupSlot,
}

// The reply: done with no value, done with one, no answer came, or declined.
// Hosts match on it, and so does specs/Replies `reply_of`: no Option of a Result.
#[derive(Clone, Copy)]
pub enum Answer {
    Done,
    Value(u64),
    Silent,
    Declined(Refusal),
}

// What a call gives: the records after it, the answer, and the bytes of the place that read answers (zeros for any other reply).
#[derive(Clone, Copy)]
pub struct Outcome {
    pub records: Records,
    pub answer: Answer,
    pub bytes: Place,
}
