// What copy is checked for before its message: 4, then 6, 7, 16 and 17.
#![tactic(auto)]

ghost use Rattle.std.specs.Prelude.{◌≡◌, ◌<◌, length};
ghost use Rattle.cluster.specs.Refusals.{not_two, refuses_at, restored_source, unfit_source, copy_rows, first_of};
ghost use Rattle.checks.specs.Verdicts.{verdict_of};
ghost use Rattle.delivery.specs.Messages.{Named};

use checks::refuse_if;
use cluster::{Phase, Refusal, Server, Shape};
use crc32::Tables;
use delivery::medium_of;
use fate::Fate;
use message_checks::{is_active, unfit_fate};
use storage::sizes::Place;
use voters::restored_at;

// 4: a replica number is not below R, or one is named twice.
pub fn not_two(r: u64, from: u64, to: u64) -> bool
    ensures { result ≡ not_two r from to }
{
    r <= from || r <= to || from == to
}

// A restored replica is no source until a session has opened with it: then it is ordinary, though the entry handed over at take still says restored.
fn source_restored(v: Server, from: usize) -> bool
    requires { from < 7 }
    ensures { result ≡ restored_source v from }
{
    matches!(v.phase, Phase::Opening) && restored_at(v, from)
}

// The replica that is read would decline.
fn source_declines(t: &Tables, shape: Shape, v: Server, media: &[u8], from: usize) -> bool
    requires named { Named shape v from (length media.now) }
    ensures { result ≡ refuses_at shape.places v media.now from }
{
    let medium = medium_of(media, shape.places, from);
    replica::unfit(t, medium, shape.places, v.session, v.marks[from])
}

// 17: the replica that is read is restored, or would decline.
fn source_unfit(t: &Tables, shape: Shape, v: Server, media: &[u8], from: usize) -> bool
    requires named { Named shape v from (length media.now) }
    ensures { result ≡ unfit_source shape.places v media.now from }
{
    source_restored(v, from) || source_declines(t, shape, v, media, from)
}

// 6, 7, 16 and 17.
// t, shape, v, media, from, to, f and given stay apart: the rows of cluster specs/Refusals take all but t one by one, and copy hands them on so.
pub fn check_copy(
    t: &Tables,
    shape: Shape,
    v: Server,
    media: &[u8],
    from: usize,
    to: usize,
    f: Fate,
    given: &Place,
) -> Result<(), Refusal>
    requires named { (Named shape v from (length media.now)) × (to < 7) }
    ensures { verdict_of result ≡ first_of (copy_rows shape v media.now from to f given.now) }
{
    refuse_if(unfit_fate(t, f, given, shape.places), Refusal::UnfitFate)?;
    let out = !is_active(v, from) || !is_active(v, to);
    refuse_if(out, Refusal::ReplicaOut)?;
    refuse_if(v.marks[from] <= v.marks[to], Refusal::NothingToDo)?;
    refuse_if(source_unfit(t, shape, v, media, from), Refusal::UnfitSource)
}
