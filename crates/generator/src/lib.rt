// Repeatable load: calls drawn from a seed, for a cluster of r replicas with n places each.
#![tactic(auto)]

ghost use Rattle.std.specs.Prelude.{◌≡◌, ◌%◌, ◌<◌, ◌≤◌};
ghost use Rattle.generator.specs.Load.{next as next_of, after, draw, server_at, replica_at, fate_at, fate_of, take_call, prepare_call, copy_call, trim_call, open_call, issue_call, send_call, stop_call, call_of, made_of, bare_of};
ghost use Rattle.lines.specs.Forms.{request_of};

use cluster::{Call, Request};
use fate::Fate;

// What is drawn: a call, the byte of its data, which an issue alone has, and the state of the last draw.
#[derive(Clone, Copy)]
pub struct Drawn {
    pub call: Call,
    pub byte: Option<u8>,
    pub state: u64,
}

const FACTOR: u64 = 6364136223846793005;

const SUMMAND: u64 = 1442695040888963407;

// The state behind a state. It is handed on by hand below: the laws name each draw by its place behind the call's own (specs/Load `after`).
fn next(s: u64) -> u64
    ensures { result ≡ next_of s }
{
    wrapping::product(s, FACTOR).wrapping_add(SUMMAND)
}

// The draw of a state, modulo m.
#[tactic(auto, unfolding(crate::specs::Load::draw))]
fn field(s: u64, m: u64) -> u64
    requires { 0 < m }
    ensures value { result ≡ draw s % m }
    ensures upper_bound { result < m }
{
    (s >> 32) % m
}

#[tactic(auto, unfolding(crate::specs::Load::fate_of))]
fn fate(s: u64) -> Fate
    ensures { result ≡ fate_of (draw s % 3) }
{
    match field(s, 3) {
        0 => Fate::Answered,
        1 => Fate::Lost,
        _ => Fate::AnswerLost,
    }
}

// A call without data.
fn bare(call: Call, state: u64) -> Drawn
    ensures { result ≡ bare_of call state }
{
    Drawn {
        call,
        byte: None,
        state,
    }
}

// A server and a fate, each a draw behind s, and the state of the last.
#[tactic(auto, unfolding(crate::specs::Load::after))]
fn server_and_fate(s: u64) -> (u64, Fate, u64)
    ensures { result ≡ (server_at s 1, fate_at s 2, after 2 s) }
{
    let a = next(s);
    let b = next(a);
    (field(a, 4), fate(b), b)
}

// The same with a replica before the fate.
#[tactic(auto, unfolding(crate::specs::Load::after))]
fn server_replica_and_fate(r: u64, s: u64) -> (u64, u64, Fate, u64)
    requires { 0 < r }
    ensures { result ≡ (server_at s 1, replica_at r s 2, fate_at s 3, after 3 s) }
{
    let a = next(s);
    let b = next(a);
    let c = next(b);
    (field(a, 4), field(b, r), fate(c), c)
}

// ---- The eight calls, each field a further draw behind s.

fn take(s: u64) -> Drawn
    ensures { made_of result ≡ take_call s }
{
    let (server, fate, state) = server_and_fate(s);
    bare(Call::Take(server, fate), state)
}

fn prepare(r: u64, s: u64) -> Drawn
    requires { 0 < r }
    ensures { made_of result ≡ prepare_call r s }
{
    let (server, replica, fate, state) = server_replica_and_fate(r, s);
    bare(Call::Prepare(server, replica, fate), state)
}

#[tactic(auto, unfolding(crate::specs::Load::after))]
fn copy(r: u64, s: u64) -> Drawn
    requires { 0 < r }
    ensures { made_of result ≡ copy_call r s }
{
    let a = next(s);
    let b = next(a);
    let c = next(b);
    let e = next(c);
    bare(
        Call::Copy(field(a, 4), field(b, r), field(c, r), fate(e)),
        e,
    )
}

fn trim(r: u64, s: u64) -> Drawn
    requires { 0 < r }
    ensures { made_of result ≡ trim_call r s }
{
    let (server, replica, fate, state) = server_replica_and_fate(r, s);
    bare(Call::Trim(server, replica, fate), state)
}

fn open(s: u64) -> Drawn
    ensures { made_of result ≡ open_call s }
{
    let (server, fate, state) = server_and_fate(s);
    bare(Call::Open(server, fate), state)
}

// The script's request: client 100, partition and sequence 0. The crate lines builds it too: there it is read, here drawn, each by its own definition.
fn request(mark: u64, generation: u32, header: u32) -> Request
    ensures { result ≡ request_of mark generation header }
{
    Request {
        mark,
        client: 100,
        generation,
        partition: 0,
        sequence: 0,
        header,
    }
}

#[tactic(auto, unfolding(crate::specs::Load::after))]
fn issue(n: u64, s: u64) -> Drawn
    requires { n ≤ 1000 }
    ensures { made_of result ≡ issue_call n s }
{
    let a = next(s);
    let b = next(a);
    let c = next(b);
    let e = next(c);
    let q = request(field(b, n + 1), 0, 1 + field(c, 100) as u32);
    Drawn {
        call: Call::Issue(field(a, 4), q),
        byte: Some(field(e, 256) as u8),
        state: e,
    }
}

fn send(r: u64, s: u64) -> Drawn
    requires { 0 < r }
    ensures { made_of result ≡ send_call r s }
{
    let (server, replica, fate, state) = server_replica_and_fate(r, s);
    bare(Call::Send(server, replica, fate), state)
}

#[tactic(auto, unfolding(crate::specs::Load::after))]
fn stop(s: u64) -> Drawn
    ensures { made_of result ≡ stop_call s }
{
    let a = next(s);
    bare(Call::Stop(field(a, 4)), a)
}

// The call behind state s.
pub fn call(r: u64, n: u64, s: u64) -> Drawn
    requires r_nonzero { 0 < r }
    requires n_bound { n ≤ 1000 }
    ensures { made_of result ≡ call_of r n s }
{
    let a = next(s);
    match field(a, 8) {
        0 => take(a),
        1 => prepare(r, a),
        2 => copy(r, a),
        3 => trim(r, a),
        4 => open(a),
        5 => issue(n, a),
        6 => send(r, a),
        _ => stop(a),
    }
}
