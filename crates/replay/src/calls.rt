// The call that a line asks for. FATE stands for three fields, as in the vectors: 0 answered, 1 lost, 2 answer lost or 3 cut; the
// write w; 0 old, 1 new or 2 torn.
use cluster::{Call, Request};
use replay_state::fields;
use run_lines::fates;

// The calls but the export, which stands by itself.
#[derive(Clone, Copy, PartialEq, Eq)]
pub enum Name {
    Take,
    Prepare,
    Copy,
    Trim,
    Open,
    Send,
    Note,
    Read,
    Issue,
    Stop,
    Reassign,
    Restore,
}

// A request is from field 2 on: client's mark, client, generation, partition, sequence, header; its data and locks lie beside it.
fn request(line: &[u8]) -> Option<Request> {
    Some(Request {
        mark: fields::at(line, 2),
        client: fields::word(line, 3)?,
        generation: fields::word(line, 4)?,
        partition: fields::word(line, 5)?,
        sequence: fields::at(line, 6),
        header: fields::word(line, 7)?,
    })
}

// Before FATE stand a server; a server and a replica; or with them another replica or an ID.
pub fn read(line: &[u8], name: Name) -> Option<Call> {
    let s = fields::at(line, 1);
    let i = fields::at(line, 2);
    let n = fields::at(line, 3);
    let call = match name {
        Name::Take => Call::Take(s, fates::read(line, 2)?),
        Name::Prepare => Call::Prepare(s, i, fates::read(line, 3)?),
        Name::Copy => Call::Copy(s, i, n, fates::read(line, 4)?),
        Name::Trim => Call::Trim(s, i, fates::read(line, 3)?),
        Name::Open => Call::Open(s, fates::read(line, 2)?),
        Name::Send => Call::Send(s, i, fates::read(line, 3)?),
        Name::Note => Call::Note(s, i, fates::read(line, 3)?),
        Name::Read => Call::Read(s, i, n, fates::read(line, 4)?),
        Name::Issue => Call::Issue(s, request(line)?),
        Name::Stop => Call::Stop(s),
        Name::Reassign => Call::Reassign,
        Name::Restore => Call::Restore(s),
    };
    Some(call)
}
