// Refusal 2, of every call: the marks in the register and in the server records.
#![tactic(auto)]

ghost use Rattle.std.specs.Prelude.{◌≡◌, ◌≤◌};
ghost use Rattle.cluster.specs.Refusals.{closing_fits, entries_fit, server_fits, mark_above};
ghost use Rattle.mark_checks.specs.Below.{below_fits};

use cluster::{Closing, Entry, Records, Server, Shape};

fn closing_fits(c: Closing, n: u64) -> bool
    ensures { result ≡ closing_fits c n }
{
    match c {
        Closing::Mark(m) => m <= n,
        Closing::Unresolved | Closing::Restored => true,
    }
}

// Records are lent here, and looked at without a copy. The loops over entries and marks run over all seven: with a fixed count the compiler unrolls them.
fn entries_fit(entries: &[Entry; 7], shape: Shape) -> bool
    requires { shape.replicas ≤ 7 }
    ensures { result ≡ entries_fit shape entries.now }
{
    let mut ok = true;
    let r = shape.replicas as usize;
    for i in 0..7 {
        ok &= (r <= i) | closing_fits(entries[i].closing, shape.places);
    }
    ok
}

fn marks_fit(marks: &[u64; 7], shape: Shape) -> bool
    requires { shape.replicas ≤ 7 }
    ensures { result ≡ below_fits shape marks.now }
{
    let mut ok = true;
    let r = shape.replicas as usize;
    for i in 0..7 {
        ok &= (r <= i) | (marks[i] <= shape.places);
    }
    ok
}

fn server_fits(s: &Server, shape: Shape) -> bool
    requires { shape.replicas ≤ 7 }
    ensures { result ≡ server_fits shape s.now }
{
    let n = shape.places;
    entries_fit(&s.entries, shape)
        & marks_fit(&s.marks, shape)
        & (s.start <= n)
        & (s.issued <= n)
        & (s.acked <= n)
}

// 2: a mark in the register or a server record is above N. The servers are named one by one, for the same reason as entries and marks are.
pub fn mark_above(records: &Records, shape: Shape) -> bool
    requires { shape.replicas ≤ 7 }
    ensures { result ≡ mark_above shape records.now }
{
    let servers = &records.servers;
    let fit = server_fits(&servers[0], shape)
        & server_fits(&servers[1], shape)
        & server_fits(&servers[2], shape)
        & server_fits(&servers[3], shape);
    !(entries_fit(&records.register.entries, shape) & fit)
}
