// The two files of a log: their lengths, and the files written. The lengths are a pass of their own over the length fields: files of other lengths stay
// as they were.
#![tactic(auto)]

ghost use Rattle.std.specs.Prelude.{◌≡◌, ◌+◌, ◌≤◌, ◌<◌, length};
ghost use Rattle.octets.specs.Octets.{write_at};
ghost use Rattle.storage.specs.Sizes.{place_size, data_limit, places_limit, medium_size};
ghost use Rattle.storage.specs.Places.{size_of};
ghost use Rattle.storage.specs.Log.{place_at, places_from};
ghost use Rattle.segment.specs.Header.{header_size};
ghost use Rattle.segment.specs.Pair.{records_of, offsets_from, pair_of, data_size, index_size, AllSized};

use crc32::Tables;
use segment::header::{HEADER, Stamp, write_header};
use segment::pair::OFFSET;
use segment::record;
use storage::sizes::{PLACE, SLOTS};

// A medium's first places, those that are written out: they lie in it, and none has more data than a place holds.
#[derive(Clone, Copy)]
pub struct Log<'a> {
    pub medium: &'a [u8],
    pub places: usize,
    pub ghost inside: { medium_size places ≤ length medium.now },
    pub ghost sized: { AllSized places medium.now },
    pub ghost few: { places ≤ places_limit },
}

impl<'a> Log<'a> {
    // The place behind the first n.
    fn place(&self, n: usize) -> &[u8]
        requires { n < self.now.places }
        ensures value { result.now ≡ place_at (n + 1) self.now.medium.now }
        ensures size { length result.now ≡ place_size }
        ensures bound { size_of result.now ≤ data_limit }
    {
        let a = SLOTS + PLACE * n;
        &self.medium[a..a + PLACE]
    }

    // The length of the data file.
    // An index, since a place is bounded where it is named by its number (`place`): chunks are no plainer.
    pub fn data_size(&self) -> usize
        ensures { result ≡ data_size (places_from self.now.places 1 self.now.medium.now) }
    {
        let mut size = HEADER;
        for n in 0..self.places {
            size += record::size_of(self.place(n));
        }
        size
    }

    // The records and offsets behind the headers.
    // An index, since the data file goes on by each record's own size beside two strides: chunks are no plainer.
    fn write_records(&self, t: &Tables, file: &mut [u8], index: &mut [u8])
        requires file_len { length file.old ≡ data_size (places_from self.now.places 1 self.now.medium.now) }
        requires index_len { length index.old ≡ index_size self.now.places }
        ensures { (file.new ≡ write_at header_size (records_of (places_from self.now.places 1 self.now.medium.now)) file.old) × (index.new ≡ write_at header_size (offsets_from header_size (places_from self.now.places 1 self.now.medium.now)) index.old) }
    {
        let mut at = HEADER;
        for n in 0..self.places {
            let place = self.place(n);
            let end = at + record::size_of(place);
            record::write_record(t, &mut file[at..end], place);
            octets::put_be(index, HEADER + OFFSET * n, OFFSET, at as u64);
            at = end;
        }
    }

    // The two files.
    pub fn write_pair(&self, t: &Tables, file: &mut [u8], index: &mut [u8], z: Stamp)
        requires file_len { length file.old ≡ data_size (places_from self.now.places 1 self.now.medium.now) }
        requires index_len { length index.old ≡ index_size self.now.places }
        ensures { (file.new ≡ (pair_of z (places_from self.now.places 1 self.now.medium.now)).data_file) × (index.new ≡ (pair_of z (places_from self.now.places 1 self.now.medium.now)).index_file) }
    {
        write_header(&mut file[0..HEADER], z);
        write_header(&mut index[0..HEADER], z);
        self.write_records(t, file, index);
    }
}
