// open: an opening server whose mark is decided and held by Q clean replicas opens its session.
ghost use Rattle.std.specs.Prelude.{◌≡◌, ◌≤◌, [], IfOk};
ghost use Rattle.ballot.specs.Counted.{CountedOf};
ghost use Rattle.cluster.specs.declared.Call.TheVariants as call;
ghost use Rattle.cluster.specs.Refusals.{first_of};
ghost use Rattle.cluster.specs.Step.{step};
ghost use Rattle.checks.specs.Verdicts.{verdict_of};
ghost use Rattle.checks.specs.Results.{state_of, input_of, result_of};
ghost use Rattle.register_calls.specs.Judged.{open_rows};

use ballot::Ballot;
use checks::{ONLY_OPENING, allowed, refuse_if};
use cluster::{Outcome, Records, Refusal, Register, Server, Shape};
use fate::Fate;
use open_effect::{fill, opened};
use register_message::{is_answered, is_cut, settle};

// 5, 6, 8, 9 and 22, of an opening server's record among so many replicas; if none is met, its ballot.
fn judge<'a>(
    register: &Register,
    server: &'a Server,
    replicas: usize,
    fate: Fate,
) -> Result<Ballot<'a>, Refusal>
    requires { replicas ≤ 7 }
    ensures verdict { verdict_of result ≡ first_of (open_rows register.now server.now replicas fate) }
    ensures ballot { IfOk result (CountedOf server.now replicas) }
{
    refuse_if(!allowed(server.phase, ONLY_OPENING), Refusal::OtherPhase)?;
    refuse_if(is_cut(fate), Refusal::UnfitFate)?;
    let ballot = Ballot::count(server, replicas).ok_or(Refusal::Undecided)?;
    refuse_if(ballot.has_too_few(), Refusal::TooFewClean)?;
    let differs = register.session != server.session;
    refuse_if(is_answered(fate) && differs, Refusal::OtherSession)?;
    Ok(ballot)
}

pub fn open(
    shape: Shape,
    records: Records,
    media: &[u8],
    tables: &mut [u64],
    server: u64,
    fate: Fate,
) -> Outcome
    ensures { result_of result media.now tables.new ≡ step shape (state_of records media.now tables.old) (input_of (call.Open server fate) []) }
{
    if let Err(why) = checks::admit_server(shape, records, media.len(), tables.len(), server) {
        return checks::declined(records, why);
    }
    let i = server as usize;
    let v = records.servers[i];
    match judge(&records.register, &v, shape.replicas as usize, fate) {
        Err(why) => checks::declined(records, why),
        Ok(ballot) => {
            fill(tables, i, ballot.mark, fate);
            settle(records, i, opened(records.register, &ballot, fate))
        }
    }
}
