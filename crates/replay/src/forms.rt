// The forms of the lines.
use crate::calls::Name;
use crate::lent::Slice;
use replay_state::fields;
use replay_state::lines::Part;
use text::line;

// What a line does: it makes a call, an export or a recovery, or hands in what is held or about what is lent.
#[derive(Clone, Copy, PartialEq, Eq)]
pub enum Kind {
    Call(Name),
    Export,
    Recover,
    Part(Part),
    Lent(Slice),
}

// A word's kind, how many fields its lines have, and how many of them are no numbers: the word, and BYTES.
#[derive(Clone, Copy)]
struct Form(Kind, usize, usize);

fn form_of(word: &[u8]) -> Option<Form> {
    let form = match word {
        b"take" => Form(Kind::Call(Name::Take), 5, 1),
        b"prepare" => Form(Kind::Call(Name::Prepare), 6, 1),
        b"copy" => Form(Kind::Call(Name::Copy), 7, 1),
        b"trim" => Form(Kind::Call(Name::Trim), 6, 1),
        b"open" => Form(Kind::Call(Name::Open), 5, 1),
        b"send" => Form(Kind::Call(Name::Send), 6, 1),
        b"note" => Form(Kind::Call(Name::Note), 6, 1),
        b"read" => Form(Kind::Call(Name::Read), 7, 1),
        b"issue" => Form(Kind::Call(Name::Issue), 8, 1),
        b"stop" => Form(Kind::Call(Name::Stop), 2, 1),
        b"reassign" => Form(Kind::Call(Name::Reassign), 1, 1),
        b"restore" => Form(Kind::Call(Name::Restore), 2, 1),
        b"export" => Form(Kind::Export, 10, 2),
        b"recover" => Form(Kind::Recover, 6, 3),
        _ => return held_form_of(word),
    };
    Some(form)
}

// The same of the lines that hand something in.
fn held_form_of(word: &[u8]) -> Option<Form> {
    let form = match word {
        b"shape" => Form(Kind::Part(Part::Shape), 4, 1),
        b"register" => Form(Kind::Part(Part::Register), 3, 1),
        b"entry" => Form(Kind::Part(Part::Entry), 5, 1),
        b"server" => Form(Kind::Part(Part::Server), 8, 1),
        b"handed" => Form(Kind::Part(Part::Handed), 6, 1),
        b"replica" => Form(Kind::Part(Part::Replica), 5, 1),
        b"locks" => Form(Kind::Part(Part::Locks), 9, 1),
        b"held" => Form(Kind::Part(Part::Held), 4, 2),
        b"given" => Form(Kind::Part(Part::Given), 2, 2),
        b"data" => Form(Kind::Part(Part::Data), 2, 2),
        b"lend" => Form(Kind::Lent(Slice::Lend), 3, 1),
        b"media" => Form(Kind::Lent(Slice::Media), 3, 2),
        b"table" => Form(Kind::Lent(Slice::Table), 4, 1),
        b"fresh" => Form(Kind::Lent(Slice::Fresh), 4, 1),
        b"backup" => Form(Kind::Lent(Slice::Backup), 4, 2),
        b"keep" => Form(Kind::Lent(Slice::Keep), 2, 1),
        _ => return None,
    };
    Some(form)
}

// The kind of a line, if its fields are as many as its form says, and numbers. A line of locks may have fewer.
pub fn kind_of(line: &[u8]) -> Option<Kind> {
    let Form(kind, count, others) = form_of(line::first(line))?;
    if kind == Kind::Part(Part::Locks) || fields::fit(line, count, others) {
        return Some(kind);
    }
    None
}
