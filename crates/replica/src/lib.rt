// A replica's answer to an operation: what it finds on its medium, whether it declines, what it writes and what the server hears.
#![tactic(auto)]

ghost use Rattle.std.specs.Prelude.{◌≡◌, ◌<◌, length};
ghost use Rattle.storage.specs.Operations.{HasPlace};
ghost use Rattle.cluster.specs.Refusals.{answered, refuses};
ghost use Rattle.replica.specs.Answers.{when_answered, prepares, Answered, answer_to, read_heard, Medium, Behind};

use crc32::Tables;
use fate::Fate;
use medium::operation;
use replica_checks::{Heard, judged};
use storage::operation::Operation;
use storage::sizes::Place;

// register_message's `is_answered` says the same: `answered` is a definition of cluster's, which stands above fate, so neither function can go there.
fn answers(f: Fate) -> bool
    ensures { result ≡ answered f }
{
    matches!(f, Fate::Answered)
}

fn under(f: Fate, h: Heard) -> Heard
    ensures { result ≡ when_answered f h }
{
    if answers(f) { h } else { Heard::Silent }
}

fn is_prepare(op: Operation) -> bool
    ensures { result ≡ prepares op }
{
    matches!(op, Operation::Prepare(_, _))
}

// The answer to an operation, and its writes under the message's fate. The record of an append lies beside it in `src`.
// A lost message writes nothing and is not heard, so its replica need not read its medium.
pub fn answer(
    t: &Tables,
    m: &mut [u8],
    places: u64,
    session: u64,
    recorded: u64,
    op: Operation,
    src: &Place,
    given: &Place,
    f: Fate,
) -> Heard
    requires medium { Medium places (length m.old) }
    requires has_place { (HasPlace places op) × (Behind recorded op) }
    ensures { record { heard = result; medium = m.new } ≡ answer_to places session recorded op src.now f given.now m.old }
{
    if matches!(f, Fate::Lost) {
        return Heard::Silent;
    }
    let r = operation::read_medium(t, m, places as usize);
    if let Err(why) = judged(r, session, recorded, is_prepare(op)) {
        return under(f, Heard::Declined(why));
    }
    operation::perform(t, m, r, op, src, given, f);
    if answers(f) {
        return Heard::Mark(operation::mark_after(t, m, r, op));
    }
    Heard::Silent
}

// read: nothing is written, so a replica whose answer is not heard need not read its medium.
pub fn read(t: &Tables, m: &[u8], places: u64, session: u64, recorded: u64, f: Fate) -> Heard
    requires medium { Medium places (length m.now) }
    ensures { result ≡ read_heard places session recorded f m.now }
{
    if !answers(f) {
        return Heard::Silent;
    }
    let r = operation::read_medium(t, m, places as usize);
    match judged(r, session, recorded, false) {
        Ok(()) => Heard::Mark(r.mark as u64),
        Err(why) => Heard::Declined(why),
    }
}

// Whether a replica would decline a message: what copy asks of the replica that it reads.
pub fn unfit(t: &Tables, m: &[u8], places: u64, session: u64, recorded: u64) -> bool
    requires medium { Medium places (length m.now) }
    ensures { result ≡ refuses places session recorded m.now }
{
    let r = operation::read_medium(t, m, places as usize);
    judged(r, session, recorded, false).is_err()
}
