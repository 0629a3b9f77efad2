// What a client may ask for in one request: the pair of limits that belongs to it, and whether a request exceeds a pair.
#![tactic(auto)]

ghost use Rattle.std.specs.Prelude.{◌≡◌};
ghost use Rattle.limits.specs.Limits.{limits_of, too_much};

// The most bytes of data, and the most locks.
#[derive(Clone, Copy)]
pub struct Limits {
    pub bytes: usize,
    pub locks: usize,
}

// Clients with numbers below this are gates.
const GATES: u32 = 100;

// The pair that belongs to the client: a gate's, or the booking system's.
#[tactic(auto, unfolding(crate::specs::Limits::limits_of))]
pub fn limits_of(client: u32) -> Limits
    ensures { result ≡ limits_of client }
{
    if client < GATES {
        Limits {
            bytes: 12,
            locks: 1,
        }
    } else {
        Limits {
            bytes: 28,
            locks: 4,
        }
    }
}

// A request with so many bytes of data and so many locks has more of either than the pair allows.
pub fn exceeds(limits: Limits, size: usize, locks: usize) -> bool
    ensures { result ≡ too_much limits size locks }
{
    limits.bytes < size || limits.locks < locks
}
