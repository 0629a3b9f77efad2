// Lines about the slices that the calls are lent: media, lock tables and the bytes for a restore.
ghost use Rattle.std.specs.Prelude.{◌≡◌, ◌*◌, ◌≤◌, length};
ghost use Rattle.storage.specs.Sizes.{medium_size};

use crate::backups;
use crate::memory::{MEDIA, Memory, TABLES};
use cluster::Shape;
use crc32::Tables;
use replay_state::fields;
use replay_state::state::{Lengths, State};
use run_lines::digits;
use storage::sizes::medium_size;
use text::line;

// What a line is about.
#[derive(Clone, Copy, PartialEq, Eq)]
pub enum Slice {
    // lend, bytes of the media, marks of the lock tables: the lengths of the slices lent from now on.
    Lend,
    // media, offset, BYTES.
    Media,
    // table, index, count, mark: so many marks of the lock tables become this one.
    Table,
    // fresh, R, N, K: a fresh cluster of any R up to 7.
    Fresh,
    // backup, length, offset, BYTES: so many bytes are lent from now on, and these are among them.
    Backup,
    // keep, replica: the bytes of its medium are those for a restore.
    Keep,
}

// The most replicas and places of a fresh cluster.
const REPLICAS: u64 = 7;

const PLACES: u64 = 14;

// Marks of four lock tables.
const MARKS: usize = 4096;

// The bytes of a cluster's media.
fn size(h: Shape) -> usize
    requires replicas_bound { h.replicas ≤ 7 }
    requires places_bound { h.places ≤ 14 }
    ensures { result ≡ h.replicas * medium_size h.places }
{
    (h.replicas as usize) * medium_size(h.places)
}

// A fresh cluster in slices of its lengths, which are lent from now on.
fn begin(shape: Shape, media: &mut [u8], tables: &mut [u64], state: &mut State)
    requires places_bound { shape.places ≤ 14 }
    requires media_len { length media.old ≡ shape.replicas * medium_size shape.places }
    requires tables_len { length tables.old ≡ 4096 }
{
    let t = Tables::new();
    state.records = fresh::start(&t, shape, media, tables);
    state.shape = shape;
    state.lent = Lengths {
        media: media.len(),
        tables: tables.len(),
        backup: state.lent.backup,
    };
}

fn put_fresh(line: &[u8], memory: &mut Memory) -> Option<()> {
    let shape = fields::shape(line);
    if REPLICAS < shape.replicas || PLACES < shape.places {
        return None;
    }
    let n = size(shape);
    let Memory {
        media,
        tables,
        state,
        ..
    } = memory;
    let (media, tables) = (&mut media[..], &mut tables[..]);
    if media.len() < n || tables.len() < MARKS {
        return None;
    }
    begin(shape, &mut media[..n], &mut tables[..MARKS], state);
    Some(())
}

fn put_lengths(line: &[u8], lent: &mut Lengths) -> Option<()> {
    let media = fields::up_to(line, 1, MEDIA)?;
    let tables = fields::up_to(line, 2, TABLES)?;
    lent.media = media;
    lent.tables = tables;
    Some(())
}

// The bytes that field k + 1 has, from the offset that field k is.
pub fn put_bytes(line: &[u8], k: usize, all: &mut [u8]) -> Option<()>
    requires { k ≤ 8 }
{
    let at = fields::up_to(line, k, all.len())?;
    let s = line::field(line, k + 1);
    let n = s.len() / 2;
    if n <= all.len() - at && digits::read(s, &mut all[at..at + n]) {
        return Some(());
    }
    None
}

fn put_marks(line: &[u8], tables: &mut [u64]) -> Option<()> {
    let at = fields::up_to(line, 1, tables.len())?;
    let n = fields::up_to(line, 2, tables.len() - at)?;
    tables[at..at + n].fill(fields::at(line, 3));
    Some(())
}

// What a line hands in is lent from now on; `None` where the line does not fit.
pub fn hand_in(line: &[u8], slice: Slice, memory: &mut Memory) -> Option<()> {
    match slice {
        Slice::Lend => put_lengths(line, &mut memory.state.lent),
        Slice::Media => put_bytes(line, 1, &mut memory.media),
        Slice::Table => put_marks(line, &mut memory.tables),
        Slice::Fresh => put_fresh(line, memory),
        Slice::Backup => backups::put(line, memory),
        Slice::Keep => backups::keep(line, memory),
    }
}
