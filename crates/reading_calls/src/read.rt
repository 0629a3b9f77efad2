// read: a place's bytes lie beside the answer. Nothing is written, so the media are lent for reading only.
ghost use Rattle.std.specs.Prelude.{◌≡◌, List, ℕ, ◌<◌, ◌≤◌, length};
ghost use Rattle.cluster.specs.declared.Call.TheVariants as call;
ghost use Rattle.cluster.specs.State.{server_at};
ghost use Rattle.cluster.specs.Refusals.{nothing_to_read, read_rows, first_of};
ghost use Rattle.cluster.specs.Step.{once_admitted, once_sent, step};
ghost use Rattle.checks.specs.Verdicts.{verdict_of};
ghost use Rattle.checks.specs.Results.{state_of, input_of, result_of};
ghost use Rattle.hearing.specs.Hearing.{read_by};
ghost use Rattle.delivery.specs.Messages.{Named};

use checks::{ONLY_OPEN, admit_replica, declined, refuse_if, settle};
use cluster::{Answer, Outcome, Records, Refusal, Server, Shape};
use crc32::Tables;
use delivery::medium_of;
use fate::Fate;
use hearing::{no_mark, with_heard, with_unheard};
use message_checks::check_message;
use replica_calls::copy::place_of;
use replica_checks::Heard;
use servers::put_server;
use storage::sizes::Place;

// 16: the ID is 0, above the replica's mark or above the acknowledged one.
fn nothing_to_read(v: Server, i: usize, id: u64) -> bool
    requires { i < 7 }
    ensures { result ≡ nothing_to_read v i id }
{
    id == 0 || v.marks[i] < id || v.acked < id
}

// 6, 7 and 16.
pub fn check_read(
    t: &Tables,
    shape: Shape,
    v: Server,
    i: usize,
    id: u64,
    f: Fate,
    given: &Place,
) -> Result<(), Refusal>
    requires i_bound { i < 7 }
    ensures { verdict_of result ≡ first_of (read_rows shape v i id f given.now) }
{
    check_message(t, shape, v, i, f, given)?;
    refuse_if(nothing_to_read(v, i, id), Refusal::NothingToDo)
}

// What the server makes of the answer: the place's bytes, and the mark.
pub fn read_by(records: Records, s: usize, i: usize, place: Place, heard: Heard) -> Outcome
    requires { (s < 4) × (i < 7) }
    ensures { result ≡ read_by records s i place heard }
{
    let v = records.servers[s];
    let Heard::Mark(n) = heard else {
        let c = no_mark(v, with_unheard(v, i), heard);
        return settle(records, s, c);
    };
    Outcome {
        records: put_server(records, s, with_heard(v, i, n)),
        answer: Answer::Done,
        bytes: place,
    }
}

// The message.
fn read_sent(
    t: &Tables,
    shape: Shape,
    records: Records,
    media: &[u8],
    s: usize,
    i: usize,
    id: u64,
    fate: Fate,
) -> Outcome
    requires named { (Named shape (server_at records s) i (length media.now)) × (s < 4) × (1 ≤ id) × (id ≤ shape.places) }
    ensures { (given tables : List ℕ) → result_of result media.now tables ≡ once_sent shape (state_of records media.now tables) (input_of (call.Read s i id fate) given) }
{
    let v = records.servers[s];
    let medium = medium_of(media, shape.places, i);
    let heard = replica::read(t, medium, shape.places, v.session, v.marks[i], fate);
    let place = place_of(shape, media, i, id);
    read_by(records, s, i, place, heard)
}

// A read that is admitted. The CRC tables are made here, once for the check and the message.
fn read_admitted(
    shape: Shape,
    records: Records,
    media: &[u8],
    s: usize,
    i: usize,
    id: u64,
    fate: Fate,
    given: &Place,
) -> Outcome
    requires { (Named shape (server_at records s) i (length media.now)) × (s < 4) }
    ensures { (tables : List ℕ) → result_of result media.now tables ≡ once_admitted shape (state_of records media.now tables) (input_of (call.Read s i id fate) given.now) }
{
    let t = Tables::new();
    let v = records.servers[s];
    match check_read(&t, shape, v, i, id, fate, given) {
        Err(why) => declined(records, why),
        Ok(()) => read_sent(&t, shape, records, media, s, i, id, fate),
    }
}

// read i, ID (open).
pub fn read(
    shape: Shape,
    records: Records,
    media: &[u8],
    tables: &[u64],
    server: u64,
    replica: u64,
    id: u64,
    fate: Fate,
    given: &Place,
) -> Outcome
    ensures { result_of result media.now tables.now ≡ step shape (state_of records media.now tables.now) (input_of (call.Read server replica id fate) given.now) }
{
    let admitted = admit_replica(
        shape,
        records,
        media.len(),
        tables.len(),
        server,
        shape.replicas <= replica,
        ONLY_OPEN,
    );
    match admitted {
        Err(why) => declined(records, why),
        Ok(()) => read_admitted(
            shape,
            records,
            media,
            server as usize,
            replica as usize,
            id,
            fate,
            given,
        ),
    }
}
