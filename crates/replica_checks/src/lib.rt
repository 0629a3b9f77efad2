// Refusals 18 to 20: what a replica that was read says to a message, and what a server may hear.
#![tactic(auto)]

ghost use Rattle.std.specs.Prelude.{◌≡◌, ◌||◌, ℕ, is_err};
ghost use Rattle.replica_checks.specs.Says.{says, said, lacks_slot, read_promise, read_mark, read_declines};

use cluster::Refusal;
use storage::operation::Read;
use storage::slot::Current;

// What a server hears of a message: nothing, why the replica declines, or the replica's mark after it. An enum of its own: three outcomes are
// no plainer as an `Option<Result<u64, Refusal>>`.
#[derive(Clone, Copy)]
pub enum Heard {
    Silent,
    Declined(Refusal),
    Mark(u64),
}

// 18, 19 and 20, in this order.
fn judge(slot: bool, promise: bool, mark: bool) -> Result<(), Refusal>
    ensures declines { is_err result ≡ (slot || promise || mark) }
    ensures says { (n : ℕ) → said result n ≡ says slot promise mark n }
{
    if slot {
        return Err(Refusal::NoSlot);
    }
    if promise {
        return Err(Refusal::OtherPromise);
    }
    if mark {
        return Err(Refusal::OtherMark);
    }
    Ok(())
}

// Whether a replica that was read declines a message of a session that records this mark, and why.
pub fn judged(r: Read, session: u64, recorded: u64, prepare: bool) -> Result<(), Refusal>
    ensures declines { is_err result ≡ read_declines prepare r session recorded }
    ensures says { (n : ℕ) → said result n ≡ says (lacks_slot r) (read_promise prepare r session) (read_mark prepare r recorded) n }
{
    let no_slot = matches!(r.current, Current::Neither);
    if prepare {
        return judge(no_slot, session < r.slot.promise, false);
    }
    judge(
        no_slot,
        r.slot.promise != session,
        r.mark as u64 != recorded,
    )
}
