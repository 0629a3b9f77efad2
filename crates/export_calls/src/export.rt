// export: a member's log as the two files of a segment. It is a read that answers no place: what is exported goes into the lent files, and only if the
// answer is ok.
ghost use Rattle.std.specs.Prelude.{◌≡◌, List, ℕ, ◌≤◌, ◌<◌, length};
ghost use Rattle.storage.specs.Sizes.{places_limit, medium_size};
ghost use Rattle.storage.specs.Log.{places_from};
ghost use Rattle.segment.specs.Pair.{Files, AllSized, pair_of};
ghost use Rattle.cluster.specs.declared.Call.TheVariants as call;
ghost use Rattle.cluster.specs.State.{server_at};
ghost use Rattle.cluster.specs.Replies.{reply_of};
ghost use Rattle.cluster.specs.Refusals.{exported_mark, exported_places, other_sizes};
ghost use Rattle.cluster.specs.Step.{once_admitted, once_sent, step, if_ok, files_after};
ghost use Rattle.replica_checks.specs.declared.Heard.TheVariants.{Mark};
ghost use Rattle.checks.specs.Results.{files_of, state_of, export_of, result_of};
ghost use Rattle.hearing.specs.Hearing.{export_by};
ghost use Rattle.delivery.specs.Messages.{Named};

use checks::{ONLY_OPEN, admit_replica, declined};
use cluster::{Outcome, Records, Refusal, Server, Shape};
use crc32::Tables;
use delivery::medium_of;
use fate::Fate;
use message_checks::check_message;
use reading_calls::read::read_by;
use replica_checks::Heard;
use segment::header::{HEADER, Stamp};
use segment::pair;
use segment_writer::Log;
use storage::sizes::{PLACE, Place};

// The lesser of the member's mark and the acknowledged one.
fn exported_mark(v: Server, i: usize) -> usize
    requires { i < 7 }
    ensures { result ≡ exported_mark v i }
{
    v.marks[i].min(v.acked) as usize
}

// 1, of the two files: a length that is not the exact one.
fn other_sizes(log: &Log, file: usize, index: usize) -> bool
    ensures { (files : Files) → length files.data_file ≡ file → length files.index_file ≡ index → result ≡ other_sizes (places_from log.now.places 1 log.now.medium.now) files }
{
    file != log.data_size() || index != HEADER + pair::OFFSET * log.places
}

// What the server makes of the answer: a mark comes with the two files of the medium's first k places.
fn export_by(
    t: &Tables,
    records: Records,
    s: usize,
    i: usize,
    heard: Heard,
    m: &[u8],
    k: usize,
    stamp: Stamp,
    file: &mut [u8],
    index: &mut [u8],
) -> Outcome
    requires s_bound { (s < 4) × (i < 7) }
    requires k_in_bounds { (medium_size k ≤ length m.now) × (k ≤ places_limit) }
    requires by_index { (n : ℕ) → heard ≡ Mark n → AllSized k m.now }
    ensures { (result ≡ export_by records s i (other_sizes (places_from k 1 m.now) (files_of file.old index.old)) heard) × (files_of file.new index.new ≡ if_ok (reply_of result.answer) (pair_of stamp (places_from k 1 m.now)) (files_of file.old index.old)) }
{
    let Heard::Mark(_) = heard else {
        return read_by(records, s, i, [0u8; PLACE], heard);
    };
    let log = Log {
        medium: m,
        places: k,
    };
    if other_sizes(&log, file.len(), index.len()) {
        return declined(records, Refusal::OutsideShape);
    }
    log.write_pair(t, file, index, stamp);
    read_by(records, s, i, [0u8; PLACE], heard)
}

// The message.
fn export_sent(
    t: &Tables,
    shape: Shape,
    records: Records,
    media: &[u8],
    s: usize,
    i: usize,
    stamp: Stamp,
    file: &mut [u8],
    index: &mut [u8],
    fate: Fate,
) -> Outcome
    requires named { (Named shape (server_at records s) i (length media.now)) × (s < 4) }
    ensures { ((given tables : List ℕ) → result_of result media.now tables ≡ once_sent shape (state_of records media.now tables) (export_of (call.Export s i fate) given stamp file.old index.old)) × (files_of file.new index.new ≡ if_ok (reply_of result.answer) (pair_of stamp (exported_places shape.places (server_at records s) i media.now)) (files_of file.old index.old)) }
{
    let v = records.servers[s];
    let medium = medium_of(media, shape.places, i);
    let heard = replica::read(t, medium, shape.places, v.session, v.marks[i], fate);
    let k = exported_mark(v, i);
    export_by(t, records, s, i, heard, medium, k, stamp, file, index)
}

// An export that is admitted. The CRC tables are made here, once for the check, the message and the files.
fn export_admitted(
    shape: Shape,
    records: Records,
    media: &[u8],
    s: usize,
    i: usize,
    stamp: Stamp,
    file: &mut [u8],
    index: &mut [u8],
    fate: Fate,
    given: &Place,
) -> Outcome
    requires { (Named shape (server_at records s) i (length media.now)) × (s < 4) }
    ensures { ((tables : List ℕ) → result_of result media.now tables ≡ once_admitted shape (state_of records media.now tables) (export_of (call.Export s i fate) given.now stamp file.old index.old)) × (files_of file.new index.new ≡ if_ok (reply_of result.answer) (pair_of stamp (exported_places shape.places (server_at records s) i media.now)) (files_of file.old index.old)) }
{
    let t = Tables::new();
    let v = records.servers[s];
    match check_message(&t, shape, v, i, fate, given) {
        Err(why) => declined(records, why),
        Ok(()) => export_sent(&t, shape, records, media, s, i, stamp, file, index, fate),
    }
}

// export i, time, key (open): the two files have the exact lengths, or the answer is 1.
pub fn export(
    shape: Shape,
    records: Records,
    media: &[u8],
    tables: &[u64],
    server: u64,
    replica: u64,
    stamp: Stamp,
    file: &mut [u8],
    index: &mut [u8],
    fate: Fate,
    given: &Place,
) -> Outcome
    ensures { (result_of result media.now tables.now ≡ step shape (state_of records media.now tables.now) (export_of (call.Export server replica fate) given.now stamp file.old index.old)) × (files_of file.new index.new ≡ files_after shape (state_of records media.now tables.now) (export_of (call.Export server replica fate) given.now stamp file.old index.old)) }
{
    let admitted = admit_replica(
        shape,
        records,
        media.len(),
        tables.len(),
        server,
        shape.replicas <= replica,
        ONLY_OPEN,
    );
    match admitted {
        Err(why) => declined(records, why),
        Ok(()) => export_admitted(
            shape,
            records,
            media,
            server as usize,
            replica as usize,
            stamp,
            file,
            index,
            fate,
            given,
        ),
    }
}
