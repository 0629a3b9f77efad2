// What a restore does that is not declined: to the register and to the medium.
#![tactic(auto)]

ghost use Rattle.std.specs.Prelude.{◌≡◌, List, ℕ, ◌≤◌, length};
ghost use Rattle.storage.specs.Sizes.{slots_size, medium_size};
ghost use Rattle.cluster.specs.Effects.{restored_medium, restore_effect};
ghost use Rattle.checks.specs.Results.{state_of, result_of};
ghost use Rattle.restore_effect.specs.Fitting.{Fits};

use cluster::{Closing, Outcome, Records};
use crc32::Tables;
use storage::sizes::SLOT;
use storage::slot::Slot;

// The medium becomes the bytes, with the same slot twice: the session, and the low-water marks of the bytes.
fn write_back(t: &Tables, m: &mut [u8], backup: &[u8], session: u64)
    requires m_len { length m.old ≡ length backup.now }
    requires slots_size_in_bounds { slots_size ≤ length backup.now }
    ensures { m.new ≡ restored_medium session backup.now }
{
    let x = slots::held(slots::choose(t, backup), backup);
    let y = Slot {
        promise: session,
        ..x
    };
    let mut bytes = [0u8; SLOT];
    slots::encode(t, &mut bytes, y);
    m.copy_from_slice(backup);
    octets::put(m, SLOT, &bytes);
    octets::put(m, 0, &bytes);
}

// A restore that is not declined: the register's session is raised and the entry marked, with its own session kept.
pub fn put_back(t: &Tables, records: Records, media: &mut [u8], i: usize, backup: &[u8]) -> Outcome
    requires fits { Fits records (length media.old) i (length backup.now) }
    ensures { (places : ℕ) (tables : List ℕ) → length backup.now ≡ medium_size places → result_of result media.new tables ≡ restore_effect places (state_of records media.old tables) i backup.now }
{
    let session = records.register.session + 1;
    let at = i * backup.len();
    write_back(t, &mut media[at..at + backup.len()], backup, session);
    let mut next = records;
    next.register.session = session;
    next.register.entries[i].closing = Closing::Restored;
    checks::value(next, session)
}
