// copy: a replica's place behind another one's mark is read, and written in that one as it is.
ghost use Rattle.std.specs.Prelude.{◌≡◌, List, ℕ, ◌+◌, ◌*◌, ◌<◌, ◌≤◌, length};
ghost use Rattle.storage.specs.Sizes.{medium_size};
ghost use Rattle.storage.specs.Log.{place_at};
ghost use Rattle.storage.specs.Operations.{medium_at};
ghost use Rattle.cluster.specs.declared.Call.TheVariants as call;
ghost use Rattle.cluster.specs.declared.Records.{Records};
ghost use Rattle.cluster.specs.State.{server_at};
ghost use Rattle.cluster.specs.Step.{once_admitted, step};
ghost use Rattle.checks.specs.Results.{state_of, input_of, result_of, changed};
ghost use Rattle.delivery.specs.Messages.{Named};

use checks::{Change, OPENING_OR_OPEN, admit_replica, declined, settle, unchanged_server};
use cluster::{Outcome, Records, Server, Shape};
use copy_checks::{check_copy, not_two};
use crc32::Tables;
use delivery::{deliver, medium_of};
use fate::Fate;
use storage::operation::Operation;
use storage::sizes::Place;

// Place n of replica i.
pub fn place_of(shape: Shape, media: &[u8], i: usize, n: u64) -> Place
    requires i_bound { (i < 7) × (1 ≤ n) × (n ≤ shape.places) × (shape.places ≤ 1000) }
    requires places_in_bounds { i * medium_size shape.places + medium_size shape.places ≤ length media.now }
    ensures { result ≡ place_at n (medium_at shape.places i media.now) }
{
    medium_places::read_place(medium_of(media, shape.places, i), n)
}

// A copy that is admitted. The CRC tables are made here, once for both replicas.
fn copied(
    shape: Shape,
    v: Server,
    media: &mut [u8],
    from: usize,
    to: usize,
    fate: Fate,
    given: &Place,
) -> Change
    requires { (Named shape v from (length media.old)) × (Named shape v to (length media.old)) }
    ensures { (r : Records) (s : ℕ) (tables : List ℕ) → server_at r s ≡ v → result_of (changed r s result) media.new tables ≡ once_admitted shape (state_of r media.old tables) (input_of (call.Copy s from to fate) given.now) }
{
    let t = Tables::new();
    match check_copy(&t, shape, v, media, from, to, fate, given) {
        Err(why) => unchanged_server(v, why),
        Ok(()) => {
            let mark = v.marks[to];
            let src = place_of(shape, media, from, mark + 1);
            deliver(
                &t,
                shape,
                v,
                media,
                to,
                Operation::Append(mark),
                &src,
                given,
                fate,
            )
        }
    }
}

// copy a, b (opening or open): the acknowledged mark is answered if open, else b's mark.
pub fn copy(
    shape: Shape,
    records: Records,
    media: &mut [u8],
    tables: &[u64],
    server: u64,
    from: u64,
    to: u64,
    fate: Fate,
    given: &Place,
) -> Outcome
    ensures { result_of result media.new tables.now ≡ step shape (state_of records media.old tables.now) (input_of (call.Copy server from to fate) given.now) }
{
    let admitted = admit_replica(
        shape,
        records,
        media.len(),
        tables.len(),
        server,
        not_two(shape.replicas, from, to),
        OPENING_OR_OPEN,
    );
    match admitted {
        Err(why) => declined(records, why),
        Ok(()) => {
            let s = server as usize;
            let v = records.servers[s];
            let c = copied(shape, v, media, from as usize, to as usize, fate, given);
            settle(records, s, c)
        }
    }
}
