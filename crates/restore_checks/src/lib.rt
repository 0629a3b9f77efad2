// Why a restore is declined.
#![tactic(auto)]

ghost use Rattle.std.specs.Prelude.{◌≡◌, not, ◌≤◌, eqb, length};
ghost use Rattle.storage.specs.Sizes.{slots_size, medium_size};
ghost use Rattle.cluster.specs.Refusals.{no_backup_slot, rows_of, first_of};
ghost use Rattle.checks.specs.Verdicts.{verdict_of};
ghost use Rattle.checks.specs.Results.{state_of, restore_of};

use checks::refuse_if;
use cluster::{Records, Refusal, Shape};
use crc32::Tables;
use storage::sizes::{PLACE, SLOTS};
use storage::slot::Current;

// 1, of the bytes: other than a medium's. They are divided, since N may be any number here and the product could wrap.
fn other_length(places: u64, bytes: usize) -> bool
    ensures { result ≡ not (eqb bytes (medium_size places)) }
{
    if bytes < SLOTS {
        return true;
    }
    let rest = bytes - SLOTS;
    (rest / PLACE) as u64 != places || rest % PLACE != 0
}

// 30: the bytes have no valid slot.
fn has_no_slot(t: &Tables, backup: &[u8]) -> bool
    requires slots_size_in_bounds { slots_size ≤ length backup.now }
    ensures { result ≡ no_backup_slot backup.now }
{
    matches!(slots::choose(t, backup), Current::Neither)
}

// 1, 2, 4, 21 and 30. Bytes of another length are declined first, since 30 reads their slots. A session's number has 64 bits.
pub fn judge(
    t: &Tables,
    shape: Shape,
    records: Records,
    media: &[u8],
    tables: &[u64],
    replica: u64,
    backup: &[u8],
) -> Result<(), Refusal>
    ensures { verdict_of result ≡ first_of (rows_of shape (state_of records media.now tables.now) (restore_of replica backup.now)) }
{
    if other_length(shape.places, backup.len()) {
        return Err(Refusal::OutsideShape);
    }
    checks::admit_cluster(shape, records, media.len(), tables.len())?;
    refuse_if(shape.replicas <= replica, Refusal::NoSuchReplica)?;
    refuse_if(records.register.session == u64::MAX, Refusal::AtTop)?;
    refuse_if(has_no_slot(t, backup), Refusal::NoBackupSlot)
}
