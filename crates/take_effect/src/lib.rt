// What take does: the register's session is raised, and an idle server gets it, with the generation and the entries.
#![tactic(auto)]

ghost use Rattle.std.specs.Prelude.{◌≡◌, ◌&&◌, not, cond, List, ℕ};
ghost use Rattle.cluster.specs.declared.Records.{Records};
ghost use Rattle.cluster.specs.Refusals.{session_at_top};
ghost use Rattle.cluster.specs.Effects.{arrives, raised_session, opening_server, take_effect};
ghost use Rattle.checks.specs.Results.{state_of, result_of};
ghost use Rattle.register_message.specs.Settled.{settled};

use cluster::{Answer, Phase, Register, Server};
use fate::Fate;
use register_message::{Registered, does_arrive, is_answered};

// The register with the session raised by 1, if the message arrives and there is a higher number.
fn raised(mut g: Register, fate: Fate) -> Register
    ensures { result ≡ cond (arrives fate && not (session_at_top g.session)) (raised_session g) g }
{
    if does_arrive(fate) && g.session != u64::MAX {
        g.session += 1;
    }
    g
}

// A server that a register has handed its session, generation and entries: it knows no replica.
fn opening(g: Register) -> Server
    ensures { result ≡ opening_server g }
{
    let entries = g.entries;
    Server {
        phase: Phase::Opening,
        session: g.session,
        generation: g.generation,
        entries,
        ..servers::idle()
    }
}

// What the message leaves of the register, and what the server makes of its answer or of silence.
pub fn taken(g: Register, fate: Fate) -> Registered
    ensures { (r : Records) (s : ℕ) (media tables : List ℕ) → r.register ≡ g → result_of (settled r s result) media tables ≡ take_effect (state_of r media tables) s fate }
{
    let register = raised(g, fate);
    if is_answered(fate) {
        return Registered {
            register,
            server: opening(register),
            answer: Answer::Value(register.session),
        };
    }
    Registered {
        register,
        server: servers::idle(),
        answer: Answer::Silent,
    }
}
