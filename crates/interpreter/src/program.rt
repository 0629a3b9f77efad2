// What the program holds, and what bytes of input make of it: the replies to the lines that they end stand one behind the other, for main to
// write.
ghost use Rattle.std.specs.Prelude.{◌≡◌, ◌+◌, ◌≤◌, length};
ghost use Rattle.octets.specs.Octets.{write_at};
ghost use Rattle.replies.specs.Texts.{text_of};
ghost use Rattle.answers.specs.Sizes.{line_room, out_limit};

use answers::answer;
use answers::answer::{Cluster, MEDIA, Room, TABLES};
use answers::blank::Blank;
use crc32::Tables;
use lines::forms::LIMIT;
use replies::{LONGEST, Printed};

// What is held of a line: one byte more than a line may have, enough to know that it is too long.
pub const LINE: usize = 501;

// How many bytes of input may be fed at once.
pub const PIECE: usize = 4096;

// Room for the replies to so many.
pub const OUT: usize = 98304;

// The program between two pieces of input: its cluster, the first n bytes of a line, and in the first o bytes of `out` the replies that are
// not written yet. Memory is fixed: there is no heap for a `String` or a `Vec`, so each length stands beside its bytes.
// Tried: a ghost field that n is at most 501. With one the check does not cover `reply`, which lends the line.
#[derive(Clone, Copy)]
pub struct Running {
    pub crc: Tables,
    pub blank: Blank,
    pub cluster: Cluster,
    pub room: Room,
    pub line: [u8; LINE],
    pub n: usize,
    pub out: [u8; OUT],
    pub o: usize,
}

// Puts a reply behind the o bytes of others.
fn put(out: &mut [u8; OUT], o: usize, printed: Printed) -> usize
    requires o_bound { o + 24 ≤ out_limit }
    ensures upper_bound { result ≤ o + 24 }
    ensures value { result ≡ o + length (text_of printed) }
    ensures out_after { out.new ≡ write_at o (text_of printed) out.old }
{
    let mut text = [0u8; LONGEST];
    let k = replies::print(&mut text, printed);
    octets::put(out, o, &text[..k]);
    o + k
}

impl Running {
    ghost use Rattle.std.specs.Prelude.{◌*◌, length};
    ghost use Rattle.interpreter.specs.Input.{start, emptied, ended, fed, closed, program_in};

    // Before the first byte.
    pub fn start() -> Running
        ensures value { program_in result ≡ start result.cluster.media result.cluster.tables }
        ensures n_value { result.n ≡ 0 }
        ensures o_value { result.o ≡ 0 }
    {
        Running {
            crc: Tables::new(),
            blank: Blank::new(),
            cluster: Cluster {
                held: answer::nothing(),
                media: [0u8; MEDIA],
                tables: [0u64; TABLES],
            },
            room: Room {
                content: [0u8; LIMIT],
                locks: [0u64; LIMIT],
            },
            line: [0u8; LINE],
            n: 0,
            out: [0u8; OUT],
            o: 0,
        }
    }

    // The replies that are not written yet.
    pub fn replies(&self) -> &[u8]
        requires { self.now.o ≤ out_limit }
        ensures { result.now ≡ (program_in self.now).out }
    {
        &self.out[..self.o]
    }

    // They are written.
    pub fn empty(&mut self)
        ensures value { program_in self.new ≡ emptied (program_in self.old) }
        ensures n_value { self.new.n ≡ self.old.n }
        ensures o_value { self.new.o ≡ 0 }
    {
        self.o = 0;
    }

    // Answers the line held.
    fn reply(&mut self)
        requires n_bound { self.old.n ≤ line_room }
        requires o_bound { self.old.o + 24 ≤ out_limit }
        ensures upper_bound { self.new.o ≤ self.old.o + 24 }
        ensures n_value { self.new.n ≡ 0 }
        ensures value { program_in self.new ≡ ended (program_in self.old) }
    {
        let printed = self.cluster.answer(
            &self.crc,
            &self.blank,
            &self.line[..self.n],
            &mut self.room,
        );
        self.n = 0;
        self.o = put(&mut self.out, self.o, printed);
    }

    // The bytes of a piece of input, line by line. The search stays: `split_inclusive` is no plainer, since each piece's newline would be
    // tested for again and cut off.
    pub fn feed(&mut self, chunk: &[u8])
        requires n_bound { self.old.n ≤ line_room }
        requires o_bound { self.old.o + 24 * length chunk.now ≤ out_limit }
        ensures n_bound_after { self.new.n ≤ line_room }
        ensures o_bound_after { self.new.o ≤ out_limit }
        ensures value { program_in self.new ≡ fed (program_in self.old) chunk.now }
    {
        let mut i = 0;
        while i < chunk.len() {
            let j = byte_search::find(chunk, i, chunk.len(), b'\n');
            self.n = line_input::keep(&mut self.line, self.n, &chunk[i..j]);
            if j == chunk.len() {
                return;
            }
            i = j + 1;
            self.reply();
        }
    }

    // The end of the input.
    pub fn finish(&mut self)
        requires n_bound { self.old.n ≤ line_room }
        requires o_bound { self.old.o + 24 ≤ out_limit }
        ensures o_bound_after { self.new.o ≤ out_limit }
        ensures value { program_in self.new ≡ closed (program_in self.old) }
    {
        if self.n == 0 {
            return;
        }
        self.reply();
    }
}
