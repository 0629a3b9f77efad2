// take: an idle server gets the next session, the generation and the entries.
ghost use Rattle.std.specs.Prelude.{◌≡◌, ◌++◌, List, ℕ, [], length};
ghost use Rattle.cluster.specs.declared.Call.TheVariants as call;
ghost use Rattle.cluster.specs.Refusals.{only_idle, phase_rows, first_of};
ghost use Rattle.cluster.specs.Step.{step};
ghost use Rattle.checks.specs.Verdicts.{verdict_of};
ghost use Rattle.checks.specs.Results.{state_of, input_of, result_of};
ghost use Rattle.register_calls.specs.Judged.{take_rows};

use checks::{ONLY_IDLE, refuse_if};
use cluster::{Outcome, Records, Refusal, Shape};
use fate::Fate;
use register_message::{is_answered, is_cut, settle};
use take_effect::taken;

// 1 to 3, 5, 6 and 21. A session's number has 64 bits.
fn judge(
    shape: Shape,
    records: Records,
    media: usize,
    tables: usize,
    server: u64,
    fate: Fate,
) -> Result<(), Refusal>
    ensures { (m t : List ℕ) → length m ≡ media → length t ≡ tables → verdict_of result ≡ first_of (phase_rows shape (state_of records m t) server only_idle ++ take_rows records.register fate) }
{
    let at_top = records.register.session == u64::MAX;
    checks::admit_phase(shape, records, media, tables, server, ONLY_IDLE)?;
    refuse_if(is_cut(fate), Refusal::UnfitFate)?;
    refuse_if(is_answered(fate) && at_top, Refusal::AtTop)
}

pub fn take(
    shape: Shape,
    records: Records,
    media: &[u8],
    tables: &[u64],
    server: u64,
    fate: Fate,
) -> Outcome
    ensures { result_of result media.now tables.now ≡ step shape (state_of records media.now tables.now) (input_of (call.Take server fate) []) }
{
    match judge(shape, records, media.len(), tables.len(), server, fate) {
        Err(why) => checks::declined(records, why),
        Ok(()) => settle(records, server as usize, taken(records.register, fate)),
    }
}
