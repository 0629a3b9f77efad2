// The vote that open counts, once: what 8 and 9 ask, the mark, and the clean replicas.
#![tactic(auto)]

ghost use Rattle.std.specs.Prelude.{◌≡◌, false, ◌≤◌, ◌<◌, replicate};
ghost use Rattle.base.specs.Below.{up_to};
ghost use Rattle.cluster.specs.Refusals.{clean_at, too_few_clean};

use cluster::Server;

// The decided vote of an opening server among so many replicas: the mark, and the clean replicas.
#[derive(Clone, Copy)]
pub struct Ballot<'a> {
    pub server: &'a Server,
    pub replicas: usize,
    pub mark: u64,
    pub clean: [bool; 7],
    pub ghost within: { replicas ≤ 7 },
    pub ghost are_clean: { clean ≡ up_to (clean_at server.now mark) (replicate 7 false) replicas },
}

// Of the replicas that may be used, restored ones included, those exactly at the mark are clean.
fn is_clean(server: &Server, mark: u64, i: usize) -> bool
    requires { i < 7 }
    ensures { result ≡ clean_at server.now mark i }
{
    server.known[i] && !server.dropped[i] && server.marks[i] == mark
}

// Each flag is of three arrays at one index: zip and iter_mut are no plainer.
fn clean_flags(server: &Server, mark: u64, replicas: usize) -> [bool; 7]
    requires { replicas ≤ 7 }
    ensures { result ≡ up_to (clean_at server.now mark) (replicate 7 false) replicas }
{
    let mut clean = [false; 7];
    for i in 0..replicas {
        clean[i] = is_clean(server, mark, i);
    }
    clean
}

impl<'a> Ballot<'a> {
    ghost use Rattle.ballot.specs.Counted.{Counted};

    // None if the mark is not decided.
    pub fn count(server: &'a Server, replicas: usize) -> Option<Ballot<'a>>
        requires { replicas ≤ 7 }
        ensures { Counted server.now replicas result }
    {
        let mark = voters::vote_among(*server, replicas)?;
        let clean = clean_flags(server, mark, replicas);
        Some(Ballot {
            server,
            replicas,
            mark,
            clean,
        })
    }

    // Fewer than Q replicas are clean.
    pub fn has_too_few(&self) -> bool
        ensures { result ≡ too_few_clean self.now.replicas self.now.server.now self.now.mark }
    {
        quorum::count_flags(self.clean, self.replicas) < quorum::quorum_of(self.replicas)
    }
}
