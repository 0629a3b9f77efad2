// import: the pair is judged, and what passes is written.
ghost use Rattle.std.specs.Prelude.{◌≡◌};
ghost use Rattle.import_checks.specs.Refusals.{verdict, reply_of};
ghost use Rattle.segment_import.specs.Import.{imported};

use crate::fill::fill;
use crc32::Tables;
use import_checks::Reason;
use import_checks::judge::{is_outside, is_unready, judge_pair, offsets_in};
use segment::header::Stamp;

// The data file `file` and the index file `index`, with the time and key of their headers, into the medium m of so many places.
pub fn import(places: u64, m: &mut [u8], z: Stamp, file: &[u8], index: &[u8]) -> Result<(), Reason>
    ensures { (reply_of result ≡ verdict places m.old z (record { data_file = file.now; index_file = index.now })) × (m.new ≡ imported places m.old z (record { data_file = file.now; index_file = index.now })) }
{
    if is_outside(places, m.len(), index.len()) {
        return Err(Reason::UnfitSlices);
    }
    if is_unready(places, m, z, file, index) {
        return Err(Reason::Unready);
    }
    let t = Tables::new();
    let count = offsets_in(index.len());
    judge_pair(&t, file, index, count)?;
    fill(&t, m, file, count);
    Ok(())
}
