// The vote of a session's replicas: the majority mark, and whether it is decided. Flags and marks are those of up to seven replicas.
#![tactic(auto)]

ghost use Rattle.std.specs.Prelude.{◌≡◌, cond, ◌&&◌, ◌≤◌, suc, leb};
ghost use Rattle.base.specs.Below.{count};
ghost use Rattle.quorum.specs.Vote.{flags_of, marks_of, quorum, reach, majority_mark, vote_of};

pub fn quorum_of(r: usize) -> usize
    requires { r ≤ 7 }
    ensures { result ≡ quorum r }
{
    (r + 1) / 2
}

// How many of the first r flags are set.
pub fn count_flags(flags: [bool; 7], r: usize) -> usize
    requires { r ≤ 7 }
    ensures { result ≡ count (flags_of flags) r }
{
    flags[..r].iter().filter(|f| **f).count()
}

// Whether a known replica's mark is at least m, or if strict above m. (m + 1 could wrap.)
fn reaches(known: bool, mark: u64, m: u64, strict: bool) -> bool
    ensures { result ≡ (known && leb (cond strict (suc m) m) mark) }
{
    known && if strict { m < mark } else { m <= mark }
}

// How many of the first r replicas are known and reach the mark m, or if strict more than m. By one index into known and marks, which lie side by side:
// a zip of two parts is no plainer (and cluster's record has an array for each field).
fn reach_count(known: [bool; 7], marks: [u64; 7], r: usize, m: u64, strict: bool) -> usize
    requires { r ≤ 7 }
    ensures { result ≡ reach (flags_of known) (marks_of marks) r (cond strict (suc m) m) }
{
    let mut n = 0;
    for i in 0..r {
        n += reaches(known[i], marks[i], m, strict) as usize;
    }
    n
}

// The majority mark of the first r replicas. By one index into known and marks, as `reach_count` goes.
pub fn majority(known: [bool; 7], marks: [u64; 7], r: usize) -> u64
    requires { r ≤ 7 }
    ensures { result ≡ majority_mark (flags_of known) (marks_of marks) r }
{
    let q = quorum_of(r);
    let mut best = 0;
    for i in 0..r {
        let m = marks[i];
        if known[i] && q <= reach_count(known, marks, r, m, false) {
            best = best.max(m);
        }
    }
    best
}

// The mark that is decided. None: marks of the absent replicas could still make it another.
pub fn vote_of(known: [bool; 7], marks: [u64; 7], r: usize) -> Option<u64>
    requires { r ≤ 7 }
    ensures { result ≡ vote_of (flags_of known) (marks_of marks) r }
{
    let q = quorum_of(r);
    let k = count_flags(known, r);
    if k < q {
        return None;
    }
    let m = majority(known, marks, r);
    let more = reach_count(known, marks, r, m, true);
    (more + (r - k) < q).then_some(m)
}
