// The prepares of a recovery, in the order of the list. One that is declined or silent is passed over.
ghost use Rattle.std.specs.Prelude.{◌≡◌, ◌+◌, ◌<◌, ◌^◌, length};
ghost use Rattle.recovery.specs.Recovery.{played, prepares};
ghost use Rattle.recovery.specs.Asked.{recovery_of, trail_of};

use driver_calls::steps::prepare_replica;
use recovery::{Asked, Recovered};

pub fn prepare_all(asked: &Asked, g: Recovered, media: &mut [u8], tables: &[u64]) -> Recovered
    requires { g.calls + length asked.now.listed.now < 2 ^ 64 }
    ensures { let t = trail_of g media.old tables.now in trail_of result media.new tables.now ≡ played asked.now.shape t (prepares asked.now.shape (recovery_of asked.now) t asked.now.listed.now) }
{
    let mut r = g;
    for &i in asked.listed {
        r = prepare_replica(asked, r, media, tables, i);
    }
    r
}
