// What every call is checked for before anything is looked at (refusals 1 to 5; open and issue test 5 themselves), the tests by which a list of refusals is built up, and
// what a call gives when it is declined, silent or done.
#![tactic(auto)]

ghost use Rattle.std.specs.Prelude.{◌≡◌, List, [], ◌∷◌, ℕ, ◌<◌, ◌≤◌, length};
ghost use Rattle.cluster.specs.Refusals.{allows, cluster_rows, server_rows, phase_rows, replica_rows, first_of};
ghost use Rattle.cluster.specs.Effects.{no_bytes};
ghost use Rattle.checks.specs.Results.{state_of, declined_of, silent_of, value_of, done_of, changed, unchanged};
ghost use Rattle.checks.specs.Verdicts.{verdict_of, row_of};

use cluster::{Answer, Outcome, Phase, Phases, Records, Refusal, Server, Shape};
use mark_checks::mark_above;
use shape_checks::is_outside;
use storage::sizes::PLACE;

// What a call makes of one server: its record, and what is answered.
#[derive(Clone, Copy)]
pub struct Change {
    pub server: Server,
    pub answer: Answer,
}

// One test: a call goes on unless `bad`, and is declined for `why` if so.
pub fn refuse_if(bad: bool, why: Refusal) -> Result<(), Refusal>
    ensures { verdict_of result ≡ first_of (row_of why bad ∷ []) }
{
    if bad { Err(why) } else { Ok(()) }
}

// The phases that calls are made in.
pub const ONLY_IDLE: Phases = Phases {
    idle: true,
    opening: false,
    open: false,
};

pub const ONLY_OPENING: Phases = Phases {
    idle: false,
    opening: true,
    open: false,
};

pub const ONLY_OPEN: Phases = Phases {
    idle: false,
    opening: false,
    open: true,
};

pub const OPENING_OR_OPEN: Phases = Phases {
    idle: false,
    opening: true,
    open: true,
};

// A call for these phases may be made in this one.
pub fn allowed(p: Phase, phases: Phases) -> bool
    ensures { result ≡ allows p phases }
{
    match p {
        Phase::Idle => phases.idle,
        Phase::Opening => phases.opening,
        Phase::Open => phases.open,
    }
}

// 1 and 2, of every call.
// Shape, records, media and tables stay apart, here and in the three below: hosts call by these parameters (README), and the calls hand them on.
pub fn admit_cluster(
    shape: Shape,
    records: Records,
    media: usize,
    tables: usize,
) -> Result<(), Refusal>
    ensures { (m t : List ℕ) → length m ≡ media → length t ≡ tables → verdict_of result ≡ first_of (cluster_rows shape (state_of records m t)) }
{
    refuse_if(is_outside(shape, media, tables), Refusal::OutsideShape)?;
    refuse_if(mark_above(&records, shape), Refusal::MarkAbovePlaces)
}

// 1 to 3, of a call that names a server.
pub fn admit_server(
    shape: Shape,
    records: Records,
    media: usize,
    tables: usize,
    server: u64,
) -> Result<(), Refusal>
    ensures { (m t : List ℕ) → length m ≡ media → length t ≡ tables → verdict_of result ≡ first_of (server_rows shape (state_of records m t) server) }
{
    admit_cluster(shape, records, media, tables)?;
    refuse_if(3 < server, Refusal::NoSuchServer)
}

// 1 to 3 and 5, of a call for a server in these phases.
pub fn admit_phase(
    shape: Shape,
    records: Records,
    media: usize,
    tables: usize,
    server: u64,
    phases: Phases,
) -> Result<(), Refusal>
    ensures { (m t : List ℕ) → length m ≡ media → length t ≡ tables → verdict_of result ≡ first_of (phase_rows shape (state_of records m t) server phases) }
{
    admit_server(shape, records, media, tables, server)?;
    let phase = records.servers[server as usize].phase;
    refuse_if(!allowed(phase, phases), Refusal::OtherPhase)
}

// 1 to 5, of a call that names replicas too. `unnamed`: a replica number is not below R, or copy names one twice.
pub fn admit_replica(
    shape: Shape,
    records: Records,
    media: usize,
    tables: usize,
    server: u64,
    unnamed: bool,
    phases: Phases,
) -> Result<(), Refusal>
    ensures { (m t : List ℕ) → length m ≡ media → length t ≡ tables → verdict_of result ≡ first_of (replica_rows shape (state_of records m t) server unnamed phases) }
{
    admit_server(shape, records, media, tables, server)?;
    let other = !allowed(records.servers[server as usize].phase, phases);
    refuse_if(unnamed, Refusal::NoSuchReplica)?;
    refuse_if(other, Refusal::OtherPhase)
}

// A reply without a place's bytes.
fn replied(records: Records, answer: Answer) -> Outcome
    ensures { result ≡ record { records = records; answer = answer; bytes = no_bytes } }
{
    Outcome {
        records,
        answer,
        bytes: [0; PLACE],
    }
}

// A declined call changes nothing.
pub fn declined(records: Records, why: Refusal) -> Outcome
    ensures { result ≡ declined_of records why }
{
    replied(records, Answer::Declined(why))
}

pub fn silent(records: Records) -> Outcome
    ensures { result ≡ silent_of records }
{
    replied(records, Answer::Silent)
}

pub fn value(records: Records, v: u64) -> Outcome
    ensures { result ≡ value_of records v }
{
    replied(records, Answer::Value(v))
}

pub fn done(records: Records) -> Outcome
    ensures { result ≡ done_of records }
{
    replied(records, Answer::Done)
}

// A server's record is replaced once a call. The outcome is made here: by way of `replied` the records are copied once more.
pub fn settle(records: Records, i: usize, c: Change) -> Outcome
    requires { i < 4 }
    ensures { result ≡ changed records i c }
{
    Outcome {
        records: servers::put_server(records, i, c.server),
        answer: c.answer,
        bytes: [0; PLACE],
    }
}

// A server that declines stays as it is.
pub fn unchanged_server(v: Server, why: Refusal) -> Change
    ensures { result ≡ unchanged v why }
{
    Change {
        server: v,
        answer: Answer::Declined(why),
    }
}
