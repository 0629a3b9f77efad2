// The pieces of an answer, written to whatever the program prints to.
ghost use Rattle.std.specs.Prelude.{◌≡◌, ◌*◌, ◌≤◌, length};

use std::io;
use std::io::Write;

// The digits of as many bytes as are written at once.
const DIGITS: usize = 4096;

pub fn text(to: &mut impl Write, s: &[u8]) -> io::Result<()> {
    to.write_all(s)
}

pub fn number(to: &mut impl Write, v: u64) -> io::Result<()> {
    write!(to, "{v}")
}

// A number behind others.
pub fn next(to: &mut impl Write, v: u64) -> io::Result<()> {
    write!(to, "\t{v}")
}

// The digits of some bytes.
pub fn digits(to: &mut impl Write, b: &[u8]) -> io::Result<()>
    requires { length b.now ≤ 2048 }
{
    let mut room = [0u8; DIGITS];
    let spelled = &mut room[..2 * b.len()];
    hex_digits::spell(b, spelled);
    to.write_all(spelled)
}
