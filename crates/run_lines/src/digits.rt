// Bytes that a field of a line is to fill.
ghost use Rattle.std.specs.Prelude.{◌≡◌, true};
ghost use Rattle.hex_digits.specs.Hex.{bytes_of};

// The bytes whose digits s has, in out: true only where s is the digits of as many as out takes.
pub fn read(s: &[u8], out: &mut [u8]) -> bool
    ensures { result ≡ true → out.new ≡ bytes_of s.now }
{
    if s.len() != 2 * out.len() || !hex_digits::is_hex(s) {
        return false;
    }
    hex_digits::read(s, out);
    true
}
