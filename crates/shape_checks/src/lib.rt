// Refusal 1, of every call: the numbers beside the records, and the lengths of the lent slices.
#![tactic(auto)]

ghost use Rattle.std.specs.Prelude.{◌≡◌, ◌&&◌, leb};
ghost use Rattle.cluster.specs.Refusals.{replicas_fit, outside};

use cluster::{Shape, TABLES};
use storage::sizes;

// R is 1, 3, 5 or 7. The programs' clusters are told apart by a definition of their own (shapes specs/Shapes `accepted`).
fn replicas_fit(r: u64) -> bool
    ensures { result ≡ replicas_fit r }
{
    matches!(r, 1 | 3 | 5 | 7)
}

// From 1 to a limit.
fn from_one_to(limit: u64, x: u64) -> bool
    ensures { result ≡ (leb 1 x && leb x limit) }
{
    1 <= x && x <= limit
}

// 1: R, N or K is outside its values, or a lent slice has another length.
pub fn is_outside(shape: Shape, media: usize, tables: usize) -> bool
    ensures { result ≡ outside shape media tables }
{
    let r = shape.replicas;
    let n = shape.places;
    !replicas_fit(r)
        || !from_one_to(sizes::PLACES_LIMIT, n)
        || !from_one_to(n, shape.interval)
        || media != r as usize * sizes::medium_size(n)
        || tables != TABLES
}
