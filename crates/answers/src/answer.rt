// The answer to a line, on the cluster that the lines before it left.
ghost use Rattle.std.specs.Prelude.{◌≡◌, true, ◌*◌, ◌≤◌, length};
ghost use Rattle.storage.specs.Sizes.{medium_size};
ghost use Rattle.lines.specs.Forms.{meaning_of};
ghost use Rattle.shapes.specs.Shapes.{accepted};
ghost use Rattle.answers.specs.Sizes.{media_limit, tables_length};
ghost use Rattle.answers.specs.Answers.{nothing as nothing_held, after_of, left_of, cluster_line, call_line, input_of, answer_to};

use crate::blank::Blank;
use cluster::{Answer, Call, Records, Refusal, Shape};
use crc32::Tables;
use lines::forms;
use lines::forms::{LIMIT, Line};
use replies::Printed;
use segment::header::Stamp;
use storage::sizes::{PLACE, medium_size};

// The bytes of seven media of 100 places.
pub const MEDIA: usize = 50848;

// The numbers of four lock tables.
pub const TABLES: usize = 4096;

// The shape and the records of the cluster. Before the first accepted cluster line its shape is none that is accepted.
#[derive(Clone, Copy)]
pub struct Held {
    pub shape: Shape,
    pub records: Records,
}

pub fn nothing() -> Held
    ensures { result ≡ nothing_held }
{
    Held {
        shape: Shape {
            replicas: 0,
            places: 0,
            interval: 0,
        },
        records: fresh::records(),
    }
}

// What is printed, and the cluster after the line.
#[derive(Clone, Copy)]
pub struct Next {
    pub printed: Printed,
    pub held: Held,
}

// The cluster between two lines, in fixed memory.
#[derive(Clone, Copy)]
pub struct Cluster {
    pub held: Held,
    pub media: [u8; MEDIA],
    pub tables: [u64; TABLES],
}

// Room for what a line says beside its call.
#[derive(Clone, Copy)]
pub struct Room {
    pub content: [u8; LIMIT],
    pub locks: [u64; LIMIT],
}

// The bytes of a cluster's media.
fn size(h: Shape) -> usize
    requires { accepted h ≡ true }
    ensures value { result ≡ h.replicas * medium_size h.places }
    ensures upper_bound { result ≤ media_limit }
{
    (h.replicas as usize) * medium_size(h.places)
}

// A cluster line starts afresh, or is refused and leaves the cluster as it was.
fn cluster_line(
    t: &Tables,
    blank: &Blank,
    h: Held,
    shape: Shape,
    m: &mut [u8],
    tables: &mut [u64],
) -> Next
    requires m_len { length m.old ≡ media_limit }
    requires tables_len { length tables.old ≡ tables_length }
    ensures { after_of result m.new tables.new ≡ cluster_line shape h m.old tables.old }
{
    if !shapes::is_accepted(shape) {
        return Next {
            printed: Printed::Reply(Answer::Declined(Refusal::OutsideShape)),
            held: h,
        };
    }
    let n = size(shape);
    fresh::start(t, shape, &mut m[..n], tables);
    Next {
        printed: Printed::Reply(Answer::Done),
        held: Held {
            shape,
            records: blank.records,
        },
    }
}

// A call goes to the journal; before the first accepted cluster line it is bad.
fn call_line(
    h: Held,
    call: Call,
    content: &[u8],
    locks: &[u64],
    m: &mut [u8],
    tables: &mut [u64],
) -> Next
    requires { length m.old ≡ media_limit }
    ensures { after_of result m.new tables.new ≡ call_line (input_of call content.now locks.now) h m.old tables.old }
{
    let shape = h.shape;
    if !shapes::is_accepted(shape) {
        return Next {
            printed: Printed::Bad,
            held: h,
        };
    }
    let n = size(shape);
    let given = [0u8; PLACE];
    let stamp = Stamp {
        time: 0,
        key: [0u8; 16],
    };
    let o = apply::apply(
        shape,
        h.records,
        &mut m[..n],
        tables,
        call,
        content,
        locks,
        &given,
        stamp,
        &mut [],
        &mut [],
        &[],
    );
    Next {
        printed: Printed::Reply(o.answer),
        held: Held {
            shape,
            records: o.records,
        },
    }
}

impl Cluster {
    // The answer to a line; what it says beside its call is put into the room for it.
    pub fn answer(&mut self, t: &Tables, blank: &Blank, line: &[u8], room: &mut Room) -> Printed
        ensures { left_of result self.new ≡ answer_to (meaning_of line.now) self.old.held self.old.media self.old.tables }
    {
        let held = self.held;
        let media = &mut self.media;
        let tables = &mut self.tables;
        match forms::read(line, &mut room.content, &mut room.locks) {
            None => Printed::Bad,
            Some(Line::Cluster(r, n)) => {
                let shape = Shape {
                    replicas: r,
                    places: n,
                    interval: n,
                };
                let next = cluster_line(t, blank, held, shape, media, tables);
                self.held = next.held;
                next.printed
            }
            Some(Line::Asked(call, d, l)) => {
                let next = call_line(
                    held,
                    call,
                    &room.content[..d],
                    &room.locks[..l],
                    media,
                    tables,
                );
                self.held = next.held;
                next.printed
            }
        }
    }
}
