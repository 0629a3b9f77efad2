// The text of a reply of the script program.
#![tactic(auto)]

ghost use Rattle.std.specs.Prelude.{◌≡◌, ◌≤◌, [], ◌∷◌, ◌++◌, length};
ghost use Rattle.octets.specs.Octets.{write_at};
ghost use Rattle.cluster.specs.Replies.{number_of, reply_of};
ghost use Rattle.text.specs.Text.{decimal_of};
ghost use Rattle.replies.specs.Texts.{reply_text, text_of};

use cluster::{Answer, Refusal};
use text::number;

// What is printed for a line: that it is bad, or the answer to it. It is no `Option`: a bad line is printed too, and `None` would read as nothing printed.
#[derive(Clone, Copy)]
pub enum Printed {
    Bad,
    Reply(Answer),
}

// The longest text: a word of two letters, a tab, 20 digits and the newline.
pub const LONGEST: usize = 24;

// A word with its tab, a number and the newline. Replies go into lent bytes: there is no heap for a `String` that `Display` could write into.
fn put_tagged(out: &mut [u8], word: &[u8], v: u64) -> usize
    requires word_len { length word.now ≡ 3 }
    requires in_bounds { 24 ≤ length out.old }
    ensures value { result ≡ length (word.now ++ (decimal_of v ++ (10 ∷ []))) }
    ensures out_after { out.new ≡ write_at 0 (word.now ++ (decimal_of v ++ (10 ∷ []))) out.old }
{
    octets::put(out, 0, word);
    let n = number::put_decimal(out, 3, v);
    octets::put(out, 3 + n, b"\n");
    n + 4
}

fn put_whole(out: &mut [u8], text: &[u8]) -> usize
    requires { length text.now ≤ length out.old }
    ensures value { result ≡ length text.now }
    ensures out_after { out.new ≡ write_at 0 text.now out.old }
{
    octets::put(out, 0, text);
    text.len()
}

// The number of each refusal in document 01's list, which document 02's join. It is no `From`, since neither type is this crate's.
pub fn number_of(why: Refusal) -> u64
    ensures { result ≡ number_of why }
{
    match why {
        Refusal::OutsideShape => 1,
        Refusal::MarkAbovePlaces => 2,
        Refusal::NoSuchServer => 3,
        Refusal::NoSuchReplica => 4,
        Refusal::OtherPhase => 5,
        Refusal::UnfitList => 29,
        Refusal::UnfitFate => 6,
        Refusal::ReplicaOut => 7,
        Refusal::Undecided => 8,
        Refusal::TooFewClean => 9,
        Refusal::OtherGeneration => 10,
        Refusal::ClientAhead => 11,
        Refusal::TooMuch => 12,
        Refusal::HeaderZero => 28,
        Refusal::Unacknowledged => 13,
        Refusal::Full => 14,
        Refusal::CheckpointDue => 23,
        Refusal::Locked(_, _) => 15,
        Refusal::NothingToDo => 16,
        Refusal::UnfitSource => 17,
        Refusal::NoSlot => 18,
        Refusal::OtherPromise => 19,
        Refusal::OtherMark => 20,
        Refusal::AtTop => 21,
        Refusal::OtherSession => 22,
        Refusal::NoBackupSlot => 30,
    }
}

fn answered(out: &mut [u8], a: Answer) -> usize
    requires { 24 ≤ length out.old }
    ensures value { result ≡ length (reply_text (reply_of a)) }
    ensures out_after { out.new ≡ write_at 0 (reply_text (reply_of a)) out.old }
{
    match a {
        Answer::Done => put_whole(out, b"ok\n"),
        Answer::Value(v) => put_tagged(out, b"ok\t", v),
        Answer::Silent => put_whole(out, b"silent\n"),
        Answer::Declined(why) => put_tagged(out, b"no\t", number_of(why)),
    }
}

// The text at the start of out, and its length.
pub fn print(out: &mut [u8], p: Printed) -> usize
    requires { 24 ≤ length out.old }
    ensures value { result ≡ length (text_of p) }
    ensures out_after { out.new ≡ write_at 0 (text_of p) out.old }
{
    match p {
        Printed::Bad => put_whole(out, b"bad\n"),
        Printed::Reply(a) => answered(out, a),
    }
}
