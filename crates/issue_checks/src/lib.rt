// issue's own refusals (10 to 15, with 28 and 23 among them), and 5, which it tests itself.
#![tactic(auto)]

ghost use Rattle.std.specs.Prelude.{◌≡◌, ◌∷◌, ◌<◌, length};
ghost use Rattle.cluster.specs.State.{table_at};
ghost use Rattle.cluster.specs.Refusals.{only_open, wrong_phase, row, first_of, request_rows};
ghost use Rattle.checks.specs.Verdicts.{verdict_of};

use checks::{ONLY_OPEN, allowed, refuse_if};
use cluster::{Refusal, Request, Server, Shape, TABLE, WINDOW};
use limits::{Limits, exceeds};
use servers::held::lags;

// 5 and issue's own refusals, in their order: under a pair of limits, of a request with so many bytes of data, by server i's record and lock table.
// Only a request that is not declined before 15 has its locks looked up.
pub fn judge(
    shape: Shape,
    limits: Limits,
    v: Server,
    request: Request,
    size: usize,
    tables: &[u64],
    i: usize,
    locks: &[u64],
) -> Result<(), Refusal>
    requires { (i < 4) × (length tables.now ≡ 4096) }
    ensures { verdict_of result ≡ first_of (row 5 (wrong_phase only_open v) ∷ request_rows shape limits v request size (table_at i tables.now) locks.now) }
{
    let at = i * TABLE;
    refuse_if(!allowed(v.phase, ONLY_OPEN), Refusal::OtherPhase)?;
    refuse_if(request.generation != v.generation, Refusal::OtherGeneration)?;
    refuse_if(v.acked < request.mark, Refusal::ClientAhead)?;
    refuse_if(exceeds(limits, size, locks.len()), Refusal::TooMuch)?;
    refuse_if(request.header == 0, Refusal::HeaderZero)?;
    refuse_if(lags(v.acked, WINDOW, v.issued), Refusal::Unacknowledged)?;
    refuse_if(v.issued == shape.places, Refusal::Full)?;
    refuse_if(
        lags(v.start, shape.interval, v.issued),
        Refusal::CheckpointDue,
    )?;
    match locks::first_held(&tables[at..at + TABLE], locks, request.mark) {
        Some(held) => Err(Refusal::Locked(held.lock, held.estimate)),
        None => Ok(()),
    }
}
