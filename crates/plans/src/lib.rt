// What each call has its replica do, or why it is declined before the message: a call is its rows and its operation.
#![tactic(auto)]

ghost use Rattle.std.specs.Prelude.{◌≡◌, ◌<◌, ◌≤◌};
ghost use Rattle.cluster.specs.State.{mark_at};
ghost use Rattle.cluster.specs.Refusals.{first_of};
ghost use Rattle.cluster.specs.Effects.{target_of};
ghost use Rattle.plans.specs.declared.Kind.TheVariants as kind;
ghost use Rattle.plans.specs.Plans.{Planned, sending_rows, operation_of};

use checks::refuse_if;
use cluster::{Closing, Refusal, Server, Shape};
use crc32::Tables;
use fate::Fate;
use message_checks::{check_message, unfit_fate};
use servers::held::holds;
use storage::operation::{Operation, Target};
use storage::sizes::Place;
use voters::vote_among;

// The calls that name one replica and may write its medium.
#[derive(Clone, Copy)]
pub enum Kind {
    Prepare,
    Trim,
    Note,
    Send,
}

// A function and no `From`: neither type is of this crate.
fn target_of(c: Closing) -> Target
    ensures { result ≡ target_of c }
{
    match c {
        Closing::Unresolved => Target::Whole,
        Closing::Mark(m) => Target::Mark(m),
        Closing::Restored => Target::LowWater,
    }
}

// To the closing mark of the entry handed over at take, or to the replica's low-water mark if that says restored. prepare is exempt from 7.
// Here and below t, shape, v, i, f and given stay apart: the rows of cluster specs/Refusals take all but t one by one, and the calls above hand them on so.
fn plan_prepare(
    t: &Tables,
    shape: Shape,
    v: Server,
    i: usize,
    f: Fate,
    given: &Place,
) -> Result<Operation, Refusal>
    requires i_bound { i < 7 }
    ensures { Planned result (first_of (sending_rows kind.Prepare shape v i f given.now)) (operation_of kind.Prepare shape.replicas v i) }
{
    refuse_if(unfit_fate(t, f, given, shape.places), Refusal::UnfitFate)?;
    Ok(Operation::Prepare(v.session, target_of(v.entries[i].closing)))
}

// To the majority mark.
fn plan_trim(
    t: &Tables,
    shape: Shape,
    v: Server,
    i: usize,
    f: Fate,
    given: &Place,
) -> Result<Operation, Refusal>
    requires i_bound { (i < 7) × (shape.replicas ≤ 7) }
    ensures { Planned result (first_of (sending_rows kind.Trim shape v i f given.now)) (operation_of kind.Trim shape.replicas v i) }
{
    check_message(t, shape, v, i, f, given)?;
    let d = vote_among(v, shape.replicas as usize).ok_or(Refusal::Undecided)?;
    refuse_if(v.marks[i] <= d, Refusal::NothingToDo)?;
    Ok(Operation::Trim(d))
}

// With the starting mark as low-water mark and the recorded one as the local.
fn plan_note(
    t: &Tables,
    shape: Shape,
    v: Server,
    i: usize,
    f: Fate,
    given: &Place,
) -> Result<Operation, Refusal>
    requires i_bound { i < 7 }
    ensures { Planned result (first_of (sending_rows kind.Note shape v i f given.now)) (operation_of kind.Note shape.replicas v i) }
{
    check_message(t, shape, v, i, f, given)?;
    Ok(Operation::Note(v.start, v.marks[i]))
}

// The record that follows the recorded mark, if it is held.
fn plan_send(
    t: &Tables,
    shape: Shape,
    v: Server,
    i: usize,
    f: Fate,
    given: &Place,
) -> Result<Operation, Refusal>
    requires i_bound { (i < 7) × (mark_at v i ≤ 1000) }
    ensures { Planned result (first_of (sending_rows kind.Send shape v i f given.now)) (operation_of kind.Send shape.replicas v i) }
{
    check_message(t, shape, v, i, f, given)?;
    let mark = v.marks[i];
    let held = holds(v.start, v.issued, mark + 1);
    refuse_if(!held, Refusal::NothingToDo)?;
    Ok(Operation::Append(mark))
}

// Each kind has rows and an operation of its own: a closure would have to carry the law `Planned`.
pub fn plan_of(
    t: &Tables,
    kind: Kind,
    shape: Shape,
    v: Server,
    i: usize,
    f: Fate,
    given: &Place,
) -> Result<Operation, Refusal>
    requires i_bound { (i < 7) × (shape.replicas ≤ 7) × (mark_at v i ≤ 1000) }
    ensures { Planned result (first_of (sending_rows kind shape v i f given.now)) (operation_of kind shape.replicas v i) }
{
    match kind {
        Kind::Prepare => plan_prepare(t, shape, v, i, f, given),
        Kind::Trim => plan_trim(t, shape, v, i, f, given),
        Kind::Note => plan_note(t, shape, v, i, f, given),
        Kind::Send => plan_send(t, shape, v, i, f, given),
    }
}
