// The places of all records, written into the medium.
ghost use Rattle.std.specs.Prelude.{◌≡◌, false, ◌≤◌, length, drop};
ghost use Rattle.storage.specs.Sizes.{medium_size};
ghost use Rattle.segment.specs.Header.{header_size};
ghost use Rattle.import_checks.specs.Refusals.{records_unfit};
ghost use Rattle.segment_import.specs.Import.{filled};

use crate::place::write_place;
use crc32::Tables;
use segment::header::HEADER;
use segment::record::LEAST;
use storage::sizes::{PLACE, SLOTS};

// Nothing else is written: neither slot, and no place behind the records.
// An index, since the file goes on by each record's own size beside the medium's stride: chunks are no plainer.
pub fn fill(t: &Tables, m: &mut [u8], file: &[u8], count: usize)
    requires count_in_bounds { medium_size count ≤ length m.old }
    requires header_size_in_bounds { header_size ≤ length file.now }
    requires file_value { records_unfit 1 count (drop header_size file.now) ≡ false }
    ensures { m.new ≡ filled 1 count (drop header_size file.now) m.old }
{
    let mut at = HEADER;
    for n in 0..count {
        let a = SLOTS + PLACE * n;
        let size = LEAST + segment_reader::length_field(&file[at..]) as usize;
        write_place(t, &mut m[a..a + PLACE], &file[at..]);
        at += size;
    }
}
