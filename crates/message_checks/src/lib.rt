// Refusals 6 and 7, of a call that sends a replica a message: one that is cut at write 0, or that leaves given bytes which pass as a slot or a
// place; and a replica that may not be used.
#![tactic(auto)]

ghost use Rattle.std.specs.Prelude.{◌≡◌, ◌<◌};
ghost use Rattle.cluster.specs.State.{active_at};
ghost use Rattle.cluster.specs.Refusals.{left_passes, unfit, message_rows, first_of};
ghost use Rattle.checks.specs.Verdicts.{verdict_of};

use checks::refuse_if;
use cluster::{Refusal, Server, Shape};
use crc32::Tables;
use fate::{Fate, Left};
use storage::sizes::Place;

fn left_passes(t: &Tables, l: Left, given: &Place, places: u64) -> bool
    ensures { result ≡ left_passes places given.now l }
{
    matches!(l, Left::Torn) && medium::operation::given_pass(t, given, places)
}

pub fn unfit_fate(t: &Tables, f: Fate, given: &Place, places: u64) -> bool
    ensures { result ≡ unfit places given.now f }
{
    match f {
        Fate::Cut(w, l) => w == 0 || left_passes(t, l, given, places),
        Fate::Answered | Fate::Lost | Fate::AnswerLost => false,
    }
}

// A replica that is known (opening), or a member and not dropped (open): what 7 asks for.
pub fn is_active(v: Server, i: usize) -> bool
    requires { i < 7 }
    ensures { result ≡ active_at v i }
{
    v.known[i] && !v.dropped[i]
}

// 6 and 7, of a call that names one replica.
// t, shape, v, i, f and given stay apart: the rows of cluster specs/Refusals take all but t one by one, and the calls above hand them on so.
pub fn check_message(
    t: &Tables,
    shape: Shape,
    v: Server,
    i: usize,
    f: Fate,
    given: &Place,
) -> Result<(), Refusal>
    requires i_bound { i < 7 }
    ensures { verdict_of result ≡ first_of (message_rows shape v i f given.now) }
{
    refuse_if(unfit_fate(t, f, given, shape.places), Refusal::UnfitFate)?;
    refuse_if(!is_active(v, i), Refusal::ReplicaOut)
}
