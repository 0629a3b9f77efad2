// A message to a replica is delivered: the replica's medium is cut out of the media, the replica answers an operation, and the server makes of
// it what it hears.
#![tactic(auto)]

ghost use Rattle.std.specs.Prelude.{◌≡◌, List, ℕ, ◌+◌, ◌*◌, ◌<◌, ◌≤◌, length};
ghost use Rattle.storage.specs.Sizes.{places_limit, medium_size};
ghost use Rattle.storage.specs.Operations.{HasPlace, medium_at};
ghost use Rattle.cluster.specs.declared.Records.{Records};
ghost use Rattle.cluster.specs.State.{server_at, mark_at};
ghost use Rattle.replica.specs.Answers.{Behind};
ghost use Rattle.checks.specs.Results.{state_of, result_of, changed};
ghost use Rattle.delivery.specs.Messages.{Named, appends, operated};

use checks::Change;
use cluster::{Server, Shape};
use crc32::Tables;
use fate::Fate;
use hearing::hear;
use std::ops::Range;
use storage::operation::Operation;
use storage::sizes::{Place, medium_size};

// Where replica i's medium lies in the media.
pub fn range_of(places: u64, i: usize) -> Range<usize>
    requires { (places ≤ places_limit) × (i < 7) }
    ensures { (result.start ≡ i * medium_size places) × (result.end ≡ i * medium_size places + medium_size places) }
{
    let size = medium_size(places);
    i * size..i * size + size
}

// Replica i's medium in the media.
pub fn medium_of(media: &[u8], places: u64, i: usize) -> &[u8]
    requires named { (places ≤ places_limit) × (i < 7) }
    requires within { i * medium_size places + medium_size places ≤ length media.now }
    ensures { result.now ≡ medium_at places i media.now }
{
    &media[range_of(places, i)]
}

fn is_append(op: Operation) -> bool
    ensures { result ≡ appends op }
{
    matches!(op, Operation::Append(_))
}

// Server v has replica i do an operation. The record of an append lies beside it in `src`.
pub fn deliver(
    t: &Tables,
    shape: Shape,
    v: Server,
    media: &mut [u8],
    i: usize,
    op: Operation,
    src: &Place,
    given: &Place,
    fate: Fate,
) -> Change
    requires named { Named shape v i (length media.old) }
    requires has_place { (HasPlace shape.places op) × (Behind (mark_at v i) op) }
    ensures { (r : Records) (s : ℕ) (tables : List ℕ) → server_at r s ≡ v → result_of (changed r s result) media.new tables ≡ operated shape (state_of r media.old tables) s i op src.now fate given.now }
{
    let heard = replica::answer(
        t,
        &mut media[range_of(shape.places, i)],
        shape.places,
        v.session,
        v.marks[i],
        op,
        src,
        given,
        fate,
    );
    hear(v, shape.replicas as usize, i, is_append(op), heard)
}
