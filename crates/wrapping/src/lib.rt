// Products of 64-bit numbers that wrap, built from wrapping sums and halves: the form that document 01 names for the places of a lock, so the library's
// `wrapping_mul` does not take its place.
#![tactic(auto)]

ghost use Rattle.std.specs.Prelude.{◌≡◌, ◌+◌, ◌*◌, ◌%◌, ◌^◌};

// acc and, if b is odd, a too, modulo 2^64.
fn add_odd(acc: u64, a: u64, b: u64) -> u64
    ensures { result ≡ (acc + a * (b % 2)) % 2 ^ 64 }
{
    if b % 2 == 1 { acc.wrapping_add(a) } else { acc }
}

// The product modulo 2^64, by wrapping sums and halves. The loop counts no index: it ends with b.
pub fn product(k: u64, c: u64) -> u64
    ensures { result ≡ (k * c) % 2 ^ 64 }
{
    let mut acc: u64 = 0;
    let mut a = k;
    let mut b = c;
    while 0 < b {
        acc = add_odd(acc, a, b);
        a = a.wrapping_add(a);
        b /= 2;
    }
    acc
}
