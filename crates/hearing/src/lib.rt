// What a server makes of what it hears from a replica: an answer, a decline or silence.
#![tactic(auto)]

ghost use Rattle.std.specs.Prelude.{◌≡◌, ◌&&◌, cond, ◌<◌, ◌≤◌};
ghost use Rattle.cluster.specs.Refusals.{is_open};
ghost use Rattle.cluster.specs.Effects.{with_replica, heard, unheard, acknowledge};
ghost use Rattle.hearing.specs.Hearing.{counted, on_heard, after_answer, after_silence};

use checks::{Change, unchanged_server};
use cluster::{Answer, Phase, Server};
use quorum::majority;
use replica_checks::Heard;

fn with_replica(v: Server, i: usize, known: bool, dropped: bool, mark: u64) -> Server
    requires { i < 7 }
    ensures { result ≡ with_replica v i known dropped mark }
{
    let mut next = v;
    next.known[i] = known;
    next.dropped[i] = dropped;
    next.marks[i] = mark;
    next
}

// A silent replica is forgotten (opening) or dropped with its recorded mark kept (open).
pub fn with_unheard(v: Server, i: usize) -> Server
    requires { i < 7 }
    ensures { result ≡ unheard v i }
{
    match v.phase {
        Phase::Idle | Phase::Opening => with_replica(v, i, false, false, 0),
        Phase::Open => with_replica(v, i, true, true, v.marks[i]),
    }
}

// An answer sets the recorded mark.
pub fn with_heard(v: Server, i: usize, mark: u64) -> Server
    requires { i < 7 }
    ensures { result ≡ heard v i mark }
{
    with_replica(v, i, true, false, mark)
}

fn is_open(p: Phase) -> bool
    ensures { result ≡ is_open p }
{
    matches!(p, Phase::Open)
}

// The highest mark that a quorum of members reach, dropped ones included, is acknowledged.
fn acknowledged(v: Server, r: usize) -> Server
    requires { r ≤ 7 }
    ensures { result ≡ acknowledge r v }
{
    Server {
        acked: majority(v.known, v.marks, r),
        ..v
    }
}

// A server that is open counts what is acknowledged after an append.
fn counted_if(v: Server, counts: bool, p: Phase, r: usize) -> Server
    requires { r ≤ 7 }
    ensures { result ≡ counted counts r p v }
{
    if counts && is_open(p) {
        acknowledged(v, r)
    } else {
        v
    }
}

// No mark was heard: the replica declined and nothing changes, or it is silent.
#[tactic(auto, unfolding(crate::specs::Hearing::on_heard))]
pub fn no_mark(v: Server, silent: Server, heard: Heard) -> Change
    ensures { result ≡ on_heard v (λ n. after_silence silent) (after_silence silent) heard }
{
    match heard {
        Heard::Declined(why) => unchanged_server(v, why),
        Heard::Silent | Heard::Mark(_) => Change {
            server: silent,
            answer: Answer::Silent,
        },
    }
}

// What is answered: the acknowledged mark after an append by an open server, else the replica's mark.
fn answer_of(counts: bool, p: Phase, acked: u64, n: u64) -> u64
    ensures { result ≡ cond (counts && is_open p) acked n }
{
    if counts && is_open(p) { acked } else { n }
}

// `counts`: the operation was an append.
pub fn hear(v: Server, r: usize, i: usize, counts: bool, heard: Heard) -> Change
    requires { (r ≤ 7) × (i < 7) }
    ensures { result ≡ on_heard v (after_answer counts r v i) (after_silence (counted counts r v.phase (unheard v i))) heard }
{
    let p = v.phase;
    let Heard::Mark(n) = heard else {
        let w = counted_if(with_unheard(v, i), counts, p, r);
        return no_mark(v, w, heard);
    };
    let w = counted_if(with_heard(v, i, n), counts, p, r);
    Change {
        server: w,
        answer: Answer::Value(answer_of(counts, p, w.acked, n)),
    }
}
