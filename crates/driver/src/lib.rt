// A recovery by a driver, requests No. 9 and, of restored replicas, No. 10: an idle server takes a session, prepares the listed replicas, copies them to one
// mark and opens.
#![tactic(auto)]

ghost use Rattle.std.specs.Prelude.{◌≡◌, false, ◌<◌, ◌≤◌, length};
ghost use Rattle.cluster.specs.Refusals.{outside, mark_above, pass, first_of};
ghost use Rattle.checks.specs.Results.{state_of};
ghost use Rattle.recovery.specs.Recovery.{played, not_below, after_take, recovery_rows, recovered};
ghost use Rattle.recovery.specs.Asked.{asked_of, recovery_of, trail_of, Named};

use cluster::{Answer, Records, Shape};
use driver_calls::steps::{is_ok, open_session, take_session};
use driver_list::admit::admit_recovery;
use driver_stages::copies::catch_up;
use driver_stages::prepares::prepare_all;
use recovery::{Asked, Recovered};

// The prepares, the copies, and an open, whatever they came to.
fn after_take(asked: &Asked, g: Recovered, media: &mut [u8], tables: &mut [u64]) -> Recovered
    requires tables_value { (outside asked.now.shape (length media.old) (length tables.old) ≡ false) × (mark_above asked.now.shape g.records ≡ false) }
    requires server_bound { (asked.now.server < 4) × (not_below asked.now.shape.replicas asked.now.listed.now ≡ false) × (Named asked.now.listed.now) }
    requires calls_bound { g.calls ≤ 1 }
    ensures { let t = trail_of g media.old tables.old in trail_of result media.new tables.new ≡ played asked.now.shape t (after_take asked.now.shape (recovery_of asked.now) t) }
{
    let p = prepare_all(asked, g, media, tables);
    let c = catch_up(asked, p, media, tables);
    open_session(asked, c, media, tables)
}

// A take without ok ends it.
fn run(asked: &Asked, records: Records, media: &mut [u8], tables: &mut [u64]) -> Recovered
    requires { first_of (recovery_rows asked.now.shape (state_of records media.old tables.old) (recovery_of asked.now)) ≡ pass }
    ensures { trail_of result media.new tables.new ≡ recovered asked.now.shape (state_of records media.old tables.old) (recovery_of asked.now) }
{
    let g = Recovered {
        records,
        answer: Answer::Silent,
        calls: 0,
    };
    let t = take_session(asked, g, media, tables);
    if !is_ok(t.answer) {
        return t;
    }
    after_take(asked, t, media, tables)
}

// The fates are numbers (recovery specs/Asked `fate_of`), one a call, and beside each lie the 72 bytes that a torn write leaves. What is declined here makes no
// call and changes nothing; what is given otherwise is the last call's reply. Hosts call it by these parameters (README), so they stay apart.
pub fn recover(
    shape: Shape,
    records: Records,
    media: &mut [u8],
    tables: &mut [u64],
    server: u64,
    listed: &[u64],
    fates: &[u64],
    given: &[u8],
) -> Recovered
    ensures { trail_of result media.new tables.new ≡ recovered shape (state_of records media.old tables.old) (asked_of server listed.now fates.now given.now) }
{
    match admit_recovery(shape, records, media, tables, server, listed, fates, given) {
        Err(why) => Recovered {
            records,
            answer: Answer::Declined(why),
            calls: 0,
        },
        Ok(()) => {
            let asked = Asked {
                shape,
                server,
                listed,
                fates,
                given,
            };
            run(&asked, records, media, tables)
        }
    }
}
