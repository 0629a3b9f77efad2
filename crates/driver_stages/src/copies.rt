// The copies of a recovery: each known replica, a restored one too, in the order of the list, up to the highest mark that those that vote have after the
// prepares.
ghost use Rattle.std.specs.Prelude.{◌≡◌, ◌+◌, ◌<◌, ◌≤◌, ◌^◌};
ghost use Rattle.cluster.specs.State.{server_at, mark_at};
ghost use Rattle.recovery.specs.Recovery.{played, copies, copies_to, all_copies, lacks, highest_known, catching_up};
ghost use Rattle.recovery.specs.Asked.{recovery_of, trail_of, Named};

use cluster::{Records, Server};
use driver_calls::steps::{copy_record, is_ok};
use driver_list::marks::{first_at, highest_known};
use message_checks::is_active;
use recovery::{Asked, Recovered};

// A server's record of a replica's mark.
fn mark_of(r: Records, server: u64, i: u64) -> u64
    requires { (server < 4) × (i < 7) }
    ensures { result ≡ mark_at (server_at r server) i }
{
    r.servers[server as usize].marks[i as usize]
}

// From one replica to another, so many turns at most: a copy while the other is below the mark, until one is without ok.
fn copy_up(
    asked: &Asked,
    g: Recovered,
    media: &mut [u8],
    tables: &[u64],
    from: u64,
    mark: u64,
    to: u64,
    turns: u64,
) -> Recovered
    requires server_bound { (asked.now.server < 4) × (to < 7) }
    requires turns_bound { g.calls + turns < 2 ^ 64 }
    ensures { let t = trail_of g media.old tables.now in trail_of result media.new tables.now ≡ played asked.now.shape t (copies asked.now.shape (recovery_of asked.now) from mark to turns t) }
{
    let mut r = g;
    for _turn in 0..turns {
        if mark <= mark_of(r.records, asked.server, to) {
            return r;
        }
        r = copy_record(asked, r, media, tables, from, to);
        if !is_ok(r.answer) {
            return r;
        }
    }
    r
}

fn lacks_of(v: Server, mark: u64, i: usize) -> u64
    requires { i < 7 }
    ensures { result ≡ lacks v mark i }
{
    mark.saturating_sub(v.marks[i])
}

// One replica to the end. One that isn't known is passed over.
fn copy_to(
    asked: &Asked,
    g: Recovered,
    media: &mut [u8],
    tables: &[u64],
    from: u64,
    mark: u64,
    to: u64,
) -> Recovered
    requires server_bound { (asked.now.server < 4) × (to < 7) }
    requires mark_bound { g.calls + mark < 2 ^ 64 }
    ensures { let t = trail_of g media.old tables.now in trail_of result media.new tables.now ≡ played asked.now.shape t (copies_to asked.now.shape (recovery_of asked.now) from mark to t) }
{
    let v = g.records.servers[asked.server as usize];
    if !is_active(v, to as usize) {
        return g;
    }
    let turns = lacks_of(v, mark, to as usize);
    copy_up(asked, g, media, tables, from, mark, to, turns)
}

// One replica to the end before the next.
fn copy_all(
    asked: &Asked,
    g: Recovered,
    media: &mut [u8],
    tables: &[u64],
    from: u64,
    mark: u64,
) -> Recovered
    requires server_bound { (asked.now.server < 4) × (Named asked.now.listed.now) }
    requires calls_bound { (g.calls ≤ 8) × (mark ≤ 1000) }
    ensures { let t = trail_of g media.old tables.now in trail_of result media.new tables.now ≡ played asked.now.shape t (all_copies asked.now.shape (recovery_of asked.now) from mark t asked.now.listed.now) }
{
    let mut r = g;
    for &to in asked.listed {
        r = copy_to(asked, r, media, tables, from, mark, to);
    }
    r
}

// Up to the highest mark of those that vote, from the first listed of them that has it: never from a restored one.
pub fn catch_up(asked: &Asked, g: Recovered, media: &mut [u8], tables: &[u64]) -> Recovered
    requires server_bound { (asked.now.server < 4) × (Named asked.now.listed.now) }
    requires calls_bound { (g.calls ≤ 8) × (highest_known (server_at g.records asked.now.server) asked.now.listed.now ≤ 1000) }
    ensures { let t = trail_of g media.old tables.now in trail_of result media.new tables.now ≡ played asked.now.shape t (catching_up asked.now.shape (recovery_of asked.now) t) }
{
    let v = g.records.servers[asked.server as usize];
    let mark = highest_known(v, asked.listed);
    let from = first_at(v, mark, asked.listed);
    copy_all(asked, g, media, tables, from, mark)
}
