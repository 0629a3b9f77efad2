// What an opening server knows after the prepares: the highest mark of those that vote, and the first listed replica of them that has it.
ghost use Rattle.std.specs.Prelude.{◌≡◌, ◌&&◌, ◌<◌, eqb};
ghost use Rattle.cluster.specs.State.{mark_at, votes_at};
ghost use Rattle.recovery.specs.Recovery.{voter_mark, highest_known, first_at};
ghost use Rattle.recovery.specs.Asked.{Named};

use cluster::Server;
use message_checks::is_active;
use voters::restored_at;

// A replica's mark counts: it is known, and not restored.
fn is_voter(v: Server, i: usize) -> bool
    requires { i < 7 }
    ensures { result ≡ votes_at v i }
{
    is_active(v, i) && !restored_at(v, i)
}

// A replica's mark, 0 if it doesn't vote.
fn voter_mark(v: Server, i: usize) -> u64
    requires { i < 7 }
    ensures { result ≡ voter_mark v i }
{
    if is_voter(v, i) { v.marks[i] } else { 0 }
}

pub fn highest_known(v: Server, listed: &[u64]) -> u64
    requires { Named listed.now }
    ensures { result ≡ highest_known v listed.now }
{
    let mut best = 0;
    for &i in listed {
        best = voter_mark(v, i as usize).max(best);
    }
    best
}

// A voter, and exactly at the mark m.
fn is_at(v: Server, i: usize, m: u64) -> bool
    requires { i < 7 }
    ensures { result ≡ (votes_at v i && eqb (mark_at v i) m) }
{
    is_voter(v, i) && v.marks[i] == m
}

// In the order of the list; 0 if there is none.
pub fn first_at(v: Server, m: u64, listed: &[u64]) -> u64
    requires { Named listed.now }
    ensures { result ≡ first_at v m listed.now }
{
    for &i in listed {
        if is_at(v, i as usize, m) {
            return i;
        }
    }
    0
}
