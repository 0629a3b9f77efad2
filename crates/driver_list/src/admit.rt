// Why a recovery is declined itself, before it sends anything: 1 to 5, then 29.
ghost use Rattle.std.specs.Prelude.{◌≡◌, not, ◌||◌, ◌*◌, eqb};
ghost use Rattle.storage.specs.Sizes.{place_size};
ghost use Rattle.cluster.specs.Refusals.{first_of};
ghost use Rattle.checks.specs.Verdicts.{verdict_of};
ghost use Rattle.checks.specs.Results.{state_of};
ghost use Rattle.recovery.specs.Recovery.{repeats, names_none, recovery_rows};
ghost use Rattle.recovery.specs.Asked.{asked_of};

use crate::listed::{not_below, repeats};
use checks::{ONLY_IDLE, admit_replica, refuse_if};
use cluster::{Records, Refusal, Shape};
use storage::sizes::PLACE;

// 1: there are other than 72 given bytes for each fate. They are divided, since the product could wrap.
fn other_given(fates: usize, given: usize) -> bool
    ensures { result ≡ not (eqb given (fates * place_size)) }
{
    given / PLACE != fates || given % PLACE != 0
}

// 29: the list repeats a replica or names none.
fn unfit_list(listed: &[u64]) -> bool
    ensures { result ≡ (repeats listed.now || names_none listed.now) }
{
    repeats(listed) || listed.is_empty()
}

// A number is looked for again only in a list that passed 4: there a repeated one is found among the first eight. What is asked for lies apart here: it goes into
// one struct, recovery `Asked`, once these checks have found what that holds.
pub fn admit_recovery(
    shape: Shape,
    records: Records,
    media: &[u8],
    tables: &[u64],
    server: u64,
    listed: &[u64],
    fates: &[u64],
    given: &[u8],
) -> Result<(), Refusal>
    ensures { verdict_of result ≡ first_of (recovery_rows shape (state_of records media.now tables.now) (asked_of server listed.now fates.now given.now)) }
{
    refuse_if(other_given(fates.len(), given.len()), Refusal::OutsideShape)?;
    admit_replica(
        shape,
        records,
        media.len(),
        tables.len(),
        server,
        not_below(shape.replicas, listed),
        ONLY_IDLE,
    )?;
    refuse_if(unfit_list(listed), Refusal::UnfitList)
}
