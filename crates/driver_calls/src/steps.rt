// One call more of a recovery: with the fate that is next, and counted.
ghost use Rattle.std.specs.Prelude.{◌≡◌, ◌+◌, ◌<◌, ◌^◌};
ghost use Rattle.cluster.specs.Replies.{reply_of};
ghost use Rattle.recovery.specs.Recovery.{one, is_ok, taking, preparing, copying, opening};
ghost use Rattle.recovery.specs.Asked.{recovery_of, trail_of, counted};

use crate::fates::{fate_at, given_at};
use cluster::{Answer, Outcome};
use recovery::{Asked, Recovered};
use register_calls::{open, take};
use replica_calls::{calls, copy};

pub fn is_ok(a: Answer) -> bool
    ensures { result ≡ is_ok (reply_of a) }
{
    matches!(a, Answer::Done | Answer::Value(_))
}

// Every call counts, also one that is declined or silent.
fn count_call(o: Outcome, calls: u64) -> Recovered
    requires { calls + 1 < 2 ^ 64 }
    ensures { result ≡ counted o calls }
{
    Recovered {
        records: o.records,
        answer: o.answer,
        calls: calls + 1,
    }
}

// Here and below media and tables stay beside `asked`: they are lent anew to each call, mutably or not.
pub fn take_session(asked: &Asked, g: Recovered, media: &[u8], tables: &[u64]) -> Recovered
    requires { g.calls + 1 < 2 ^ 64 }
    ensures { let t = trail_of g media.now tables.now in trail_of result media.now tables.now ≡ one asked.now.shape t (taking (recovery_of asked.now) t) }
{
    let k = g.calls;
    let f = fate_at(asked.fates, k);
    let o = take::take(asked.shape, g.records, media, tables, asked.server, f);
    count_call(o, k)
}

pub fn prepare_replica(
    asked: &Asked,
    g: Recovered,
    media: &mut [u8],
    tables: &[u64],
    replica: u64,
) -> Recovered
    requires { g.calls + 1 < 2 ^ 64 }
    ensures { let t = trail_of g media.old tables.now in trail_of result media.new tables.now ≡ one asked.now.shape t (preparing (recovery_of asked.now) t replica) }
{
    let k = g.calls;
    let f = fate_at(asked.fates, k);
    let b = given_at(asked.fates.len(), asked.given, k);
    let o = calls::prepare(
        asked.shape,
        g.records,
        media,
        tables,
        asked.server,
        replica,
        f,
        &b,
    );
    count_call(o, k)
}

pub fn copy_record(
    asked: &Asked,
    g: Recovered,
    media: &mut [u8],
    tables: &[u64],
    from: u64,
    to: u64,
) -> Recovered
    requires { g.calls + 1 < 2 ^ 64 }
    ensures { let t = trail_of g media.old tables.now in trail_of result media.new tables.now ≡ one asked.now.shape t (copying (recovery_of asked.now) t from to) }
{
    let k = g.calls;
    let f = fate_at(asked.fates, k);
    let b = given_at(asked.fates.len(), asked.given, k);
    let o = copy::copy(
        asked.shape,
        g.records,
        media,
        tables,
        asked.server,
        from,
        to,
        f,
        &b,
    );
    count_call(o, k)
}

pub fn open_session(asked: &Asked, g: Recovered, media: &[u8], tables: &mut [u64]) -> Recovered
    requires { g.calls + 1 < 2 ^ 64 }
    ensures { let t = trail_of g media.now tables.old in trail_of result media.now tables.new ≡ one asked.now.shape t (opening (recovery_of asked.now) t) }
{
    let k = g.calls;
    let f = fate_at(asked.fates, k);
    let o = open::open(asked.shape, g.records, media, tables, asked.server, f);
    count_call(o, k)
}
