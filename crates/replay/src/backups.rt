// Lines about the bytes that a restore is lent.
ghost use Rattle.std.specs.Prelude.{◌≤◌};

use crate::lent;
use crate::memory::{BACKUP, MEDIA, Memory};
use cluster::REPLICAS;
use replay_state::fields;
use storage::sizes::{PLACE, SLOTS};

// The most places of a medium that is kept.
const PLACES: u64 = 15;

// The length counts only where the bytes fit.
pub fn put(line: &[u8], memory: &mut Memory) -> Option<()> {
    let n = fields::up_to(line, 1, BACKUP)?;
    lent::put_bytes(line, 2, &mut memory.backup)?;
    memory.state.lent.backup = n;
    Some(())
}

// Where the medium of a replica begins.
fn offset(i: usize, size: usize) -> usize
    requires { (i ≤ 6) × (size ≤ 1144) }
    ensures { result ≤ 6864 }
{
    i * size
}

// The bytes of a replica's medium as they are now, as many as a medium of the shape has.
pub fn keep(line: &[u8], memory: &mut Memory) -> Option<()> {
    let i = fields::below(line, 1, REPLICAS)?;
    let n = SLOTS + PLACE * memory.state.shape.places.min(PLACES) as usize;
    let at = offset(i, n);
    let Memory {
        media,
        backup,
        state,
        ..
    } = memory;
    let backup = &mut backup[..];
    backup[..n].copy_from_slice(&media[at..at + n]);
    state.lent.backup = n;
    Some(())
}
