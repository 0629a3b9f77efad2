// A message to the register: what its fate makes of it, and what a call makes of the register and of one server.
#![tactic(auto)]

ghost use Rattle.std.specs.Prelude.{◌≡◌, ◌<◌};
ghost use Rattle.cluster.specs.Refusals.{is_cut, answered};
ghost use Rattle.cluster.specs.Effects.{arrives};
ghost use Rattle.register_message.specs.Settled.{settled};

use cluster::{Answer, Outcome, Records, Register, Server};
use fate::Fate;
use storage::sizes::PLACE;

// The register and one server's record after a call, and what is answered.
#[derive(Clone, Copy)]
pub struct Registered {
    pub register: Register,
    pub server: Server,
    pub answer: Answer,
}

// A message to the register cannot be cut.
pub fn is_cut(f: Fate) -> bool
    ensures { result ≡ is_cut f }
{
    matches!(f, Fate::Cut(_, _))
}

// replica's `answers` says the same, and the definition's crate is above fate's.
pub fn is_answered(f: Fate) -> bool
    ensures { result ≡ answered f }
{
    matches!(f, Fate::Answered)
}

// Whether the message arrives, answered or not.
pub fn does_arrive(f: Fate) -> bool
    ensures { result ≡ arrives f }
{
    matches!(f, Fate::Answered | Fate::AnswerLost)
}

// Register and server are replaced once a call.
pub fn settle(mut records: Records, i: usize, c: Registered) -> Outcome
    requires { i < 4 }
    ensures { result ≡ settled records i c }
{
    records.register = c.register;
    records.servers[i] = c.server;
    Outcome {
        records,
        answer: c.answer,
        bytes: [0; PLACE],
    }
}
