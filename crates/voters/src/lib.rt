// The vote of the replicas that a server knows: what refusal 8 asks, and the mark. Restored ones are absent in it.
#![tactic(auto)]

ghost use Rattle.std.specs.Prelude.{◌≡◌, ◌&&◌, not, false, ◌≤◌, ◌<◌, get_or, replicate};
ghost use Rattle.base.specs.Below.{up_to};
ghost use Rattle.quorum.specs.Vote.{vote_of};
ghost use Rattle.cluster.specs.State.{entry_at, is_restored, restored_at, votes_at, mark_at};

use cluster::{Closing, Entry, Server};
use quorum::vote_of;

pub fn is_restored(c: Closing) -> bool
    ensures { result ≡ is_restored c }
{
    matches!(c, Closing::Restored)
}

// By the entry handed over at take, not by the register's of now.
pub fn restored_at(v: Server, i: usize) -> bool
    requires { i < 7 }
    ensures { result ≡ restored_at v i }
{
    is_restored(v.entries[i].closing)
}

// The replicas that a server may use: known, or members, and not dropped. By index, here and in `others`: an array from two others at one index, for
// which a zip with `iter_mut` is no plainer.
pub fn active_flags(known: [bool; 7], dropped: [bool; 7]) -> [bool; 7]
    ensures { result ≡ up_to (λ i. get_or known i false && not (get_or dropped i false)) (replicate 7 false) 7 }
{
    let mut flags = [false; 7];
    for i in 0..7 {
        flags[i] = known[i] && !dropped[i];
    }
    flags
}

// Those of the flagged replicas that are not restored.
fn others(flags: [bool; 7], entries: [Entry; 7]) -> [bool; 7]
    ensures { result ≡ up_to (λ i. get_or flags i false && not (is_restored (entry_at entries i).closing)) (replicate 7 false) 7 }
{
    let mut out = [false; 7];
    for i in 0..7 {
        out[i] = flags[i] && !is_restored(entries[i].closing);
    }
    out
}

// The mark that those of them decide. None: none is decided.
pub fn vote_among(v: Server, r: usize) -> Option<u64>
    requires { r ≤ 7 }
    ensures { result ≡ vote_of (votes_at v) (mark_at v) r }
{
    let flags = active_flags(v.known, v.dropped);
    vote_of(others(flags, v.entries), v.marks, r)
}
