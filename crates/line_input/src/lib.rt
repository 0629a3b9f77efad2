// The bytes of a line as they come, in pieces.
#![tactic(auto)]

ghost use Rattle.std.specs.Prelude.{◌≡◌, ◌+◌, ◌-◌, ◌≤◌, min, length, take};
ghost use Rattle.octets.specs.Octets.{write_at};

// A piece behind the n bytes held of its line, as far as there is room: how many are held now.
pub fn keep(held: &mut [u8], n: usize, piece: &[u8]) -> usize
    requires { n ≤ length held.old }
    ensures upper_bound { result ≤ length held.old }
    ensures value { result ≡ n + min (length piece.now) (length held.old - n) }
    ensures held_after { held.new ≡ write_at n (take (min (length piece.now) (length held.old - n)) piece.now) held.old }
{
    let k = piece.len().min(held.len() - n);
    octets::put(held, n, &piece[..k]);
    n + k
}
