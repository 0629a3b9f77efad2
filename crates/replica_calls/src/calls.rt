// prepare, trim, note and send: they differ in their phases, in what they are checked for before the message, and in their operation.
ghost use Rattle.std.specs.Prelude.{◌≡◌, List, ℕ, ◌<◌, length};
ghost use Rattle.cluster.specs.declared.Call.TheVariants as call;
ghost use Rattle.cluster.specs.declared.Records.{Records};
ghost use Rattle.cluster.specs.State.{server_at};
ghost use Rattle.cluster.specs.Step.{once_admitted, step};
ghost use Rattle.checks.specs.Results.{state_of, input_of, result_of, changed};
ghost use Rattle.plans.specs.Plans.{call_of, phases_of};
ghost use Rattle.delivery.specs.Messages.{Named};

use checks::{Change, ONLY_OPEN, ONLY_OPENING, admit_replica, declined, settle, unchanged_server};
use cluster::{Outcome, Phases, Records, Server, Shape};
use crc32::Tables;
use delivery::deliver;
use fate::Fate;
use plans::{Kind, plan_of};
use servers::held::record_of;
use storage::sizes::Place;

fn phases_of(kind: Kind) -> Phases
    ensures { result ≡ phases_of kind }
{
    match kind {
        Kind::Prepare | Kind::Trim => ONLY_OPENING,
        Kind::Note | Kind::Send => ONLY_OPEN,
    }
}

// A call that is admitted: its plan, and the message, with the record that follows the replica's mark beside it, which only a send writes.
// The CRC tables are made here, once for both.
fn served(
    kind: Kind,
    shape: Shape,
    v: Server,
    media: &mut [u8],
    i: usize,
    fate: Fate,
    given: &Place,
) -> Change
    requires { Named shape v i (length media.old) }
    ensures { (r : Records) (s : ℕ) (tables : List ℕ) → server_at r s ≡ v → result_of (changed r s result) media.new tables ≡ once_admitted shape (state_of r media.old tables) (input_of (call_of kind s i fate) given.now) }
{
    let t = Tables::new();
    match plan_of(&t, kind, shape, v, i, fate, given) {
        Err(why) => unchanged_server(v, why),
        Ok(op) => {
            let src = record_of(&v.held, v.issued, v.marks[i] + 1);
            deliver(&t, shape, v, media, i, op, &src, given, fate)
        }
    }
}

// What the four calls share. Each keeps a function of its own: its contract names its call, which a kind alone does not.
fn message(
    kind: Kind,
    shape: Shape,
    records: Records,
    media: &mut [u8],
    tables: &[u64],
    server: u64,
    replica: u64,
    fate: Fate,
    given: &Place,
) -> Outcome
    ensures { result_of result media.new tables.now ≡ step shape (state_of records media.old tables.now) (input_of (call_of kind server replica fate) given.now) }
{
    let admitted = admit_replica(
        shape,
        records,
        media.len(),
        tables.len(),
        server,
        shape.replicas <= replica,
        phases_of(kind),
    );
    match admitted {
        Err(why) => declined(records, why),
        Ok(()) => {
            let s = server as usize;
            let v = records.servers[s];
            let c = served(kind, shape, v, media, replica as usize, fate, given);
            settle(records, s, c)
        }
    }
}

// prepare i (opening): the replica promises the session and truncates to its closing mark; its mark is answered.
pub fn prepare(
    shape: Shape,
    records: Records,
    media: &mut [u8],
    tables: &[u64],
    server: u64,
    replica: u64,
    fate: Fate,
    given: &Place,
) -> Outcome
    ensures { result_of result media.new tables.now ≡ step shape (state_of records media.old tables.now) (input_of (call.Prepare server replica fate) given.now) }
{
    message(
        Kind::Prepare,
        shape,
        records,
        media,
        tables,
        server,
        replica,
        fate,
        given,
    )
}

// trim i (opening, decided): the replica truncates to the majority mark; its mark is answered.
pub fn trim(
    shape: Shape,
    records: Records,
    media: &mut [u8],
    tables: &[u64],
    server: u64,
    replica: u64,
    fate: Fate,
    given: &Place,
) -> Outcome
    ensures { result_of result media.new tables.now ≡ step shape (state_of records media.old tables.now) (input_of (call.Trim server replica fate) given.now) }
{
    message(
        Kind::Trim,
        shape,
        records,
        media,
        tables,
        server,
        replica,
        fate,
        given,
    )
}

// note i (open): the replica writes a slot with its low-water marks; its mark is answered.
pub fn note(
    shape: Shape,
    records: Records,
    media: &mut [u8],
    tables: &[u64],
    server: u64,
    replica: u64,
    fate: Fate,
    given: &Place,
) -> Outcome
    ensures { result_of result media.new tables.now ≡ step shape (state_of records media.old tables.now) (input_of (call.Note server replica fate) given.now) }
{
    message(
        Kind::Note,
        shape,
        records,
        media,
        tables,
        server,
        replica,
        fate,
        given,
    )
}

// send i (open): the record that follows i's mark is written in the place behind it; the acknowledged mark is answered.
pub fn send(
    shape: Shape,
    records: Records,
    media: &mut [u8],
    tables: &[u64],
    server: u64,
    replica: u64,
    fate: Fate,
    given: &Place,
) -> Outcome
    ensures { result_of result media.new tables.now ≡ step shape (state_of records media.old tables.now) (input_of (call.Send server replica fate) given.now) }
{
    message(
        Kind::Send,
        shape,
        records,
        media,
        tables,
        server,
        replica,
        fate,
        given,
    )
}
