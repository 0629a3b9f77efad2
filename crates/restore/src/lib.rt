// restore: bytes that a replica's medium held earlier are written over it, under the register's raised session as promise, and the entry is marked restored.
#![tactic(auto)]

ghost use Rattle.std.specs.Prelude.{◌≡◌};
ghost use Rattle.cluster.specs.Step.{step};
ghost use Rattle.checks.specs.Results.{state_of, restore_of, result_of};

use cluster::{Outcome, Records, Shape};
use crc32::Tables;
use restore_checks::judge;
use restore_effect::put_back;

pub fn restore(
    shape: Shape,
    records: Records,
    media: &mut [u8],
    tables: &[u64],
    replica: u64,
    backup: &[u8],
) -> Outcome
    ensures { result_of result media.new tables.now ≡ step shape (state_of records media.old tables.now) (restore_of replica backup.now) }
{
    let t = Tables::new();
    match judge(&t, shape, records, media, tables, replica, backup) {
        Err(why) => checks::declined(records, why),
        Ok(()) => put_back(&t, records, media, replica as usize, backup),
    }
}
