// Any of the thirteen calls: the list of which the guarantee speaks is a list of these. Only an export writes the two files, and only a restore reads the backup.
#![tactic(auto)]

ghost use Rattle.std.specs.Prelude.{◌≡◌};
ghost use Rattle.cluster.specs.Step.{step, files_after};
ghost use Rattle.checks.specs.Results.{files_of, state_of, beside_of, result_of};

use cluster::{Call, Outcome, Records, Shape};
use export_calls::export;
use reading_calls::read;
use replica_calls::{calls, copy};
use segment::header::Stamp;
use storage::sizes::Place;

// Hosts call by these parameters (README), so they stay apart.
pub fn apply(
    shape: Shape,
    records: Records,
    media: &mut [u8],
    tables: &mut [u64],
    call: Call,
    content: &[u8],
    locks: &[u64],
    given: &Place,
    stamp: Stamp,
    file: &mut [u8],
    index: &mut [u8],
    backup: &[u8],
) -> Outcome
    ensures { (result_of result media.new tables.new ≡ step shape (state_of records media.old tables.old) (beside_of call content.now locks.now given.now stamp file.old index.old backup.now)) × (files_of file.new index.new ≡ files_after shape (state_of records media.old tables.old) (beside_of call content.now locks.now given.now stamp file.old index.old backup.now)) }
{
    match call {
        Call::Take(s, f) => register_calls::take::take(shape, records, media, tables, s, f),
        Call::Prepare(s, i, f) => calls::prepare(shape, records, media, tables, s, i, f, given),
        Call::Copy(s, a, b, f) => copy::copy(shape, records, media, tables, s, a, b, f, given),
        Call::Trim(s, i, f) => calls::trim(shape, records, media, tables, s, i, f, given),
        Call::Open(s, f) => register_calls::open::open(shape, records, media, tables, s, f),
        Call::Issue(s, q) => issue::issue(shape, records, media, tables, s, q, content, locks),
        Call::Send(s, i, f) => calls::send(shape, records, media, tables, s, i, f, given),
        Call::Note(s, i, f) => calls::note(shape, records, media, tables, s, i, f, given),
        Call::Read(s, i, n, f) => read::read(shape, records, media, tables, s, i, n, f, given),
        Call::Export(s, i, f) => export::export(
            shape, records, media, tables, s, i, stamp, file, index, f, given,
        ),
        Call::Stop(s) => local_calls::stop::stop(shape, records, media, tables, s),
        Call::Reassign => local_calls::reassign::reassign(shape, records, media, tables),
        Call::Restore(i) => restore::restore(shape, records, media, tables, i, backup),
    }
}
