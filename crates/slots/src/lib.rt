// The two slots of a medium: which is current, what it holds, and a slot's bytes. The definitions are storage's.
#![tactic(auto)]

ghost use Rattle.std.specs.Prelude.{◌≡◌, ◌≤◌, length};
ghost use Rattle.storage.specs.Sizes.{slot_size, slots_size};
ghost use Rattle.storage.specs.Slots.{valid_slot, slot_of, slot_bytes, newer, current_of, held_of, other_at};

use crc32::Tables;
use storage::sizes::{
    LOCAL_AT, LONG, LOW_AT, PROMISE_AT, SLOT, SLOT_CHECKED, SLOTS, WORD, ZEROS_AT,
};
use storage::slot::{Current, Slot};

pub fn valid(t: &Tables, s: &[u8]) -> bool
    ensures { result ≡ valid_slot s.now }
{
    s.len() == SLOT
        && octets::all_zero(&s[ZEROS_AT..SLOT_CHECKED])
        && crc32::check(t, s, SLOT_CHECKED)
}

#[tactic(auto, unfolding(storage::specs::Slots::slot_of))]
pub fn read(s: &[u8]) -> Slot
    requires { length s.now ≡ slot_size }
    ensures { result ≡ slot_of s.now }
{
    let promise = octets::get_be(&s[PROMISE_AT..LOW_AT]);
    let low = octets::get_be(&s[LOW_AT..LOCAL_AT]);
    let local = octets::get_be(&s[LOCAL_AT..ZEROS_AT]);
    Slot {
        promise,
        low,
        local,
    }
}

pub fn encode(t: &Tables, out: &mut [u8], x: Slot)
    requires out_len { length out.old ≡ slot_size }
    ensures { out.new ≡ slot_bytes x }
{
    octets::put_be(out, PROMISE_AT, LONG, x.promise);
    octets::put_be(out, LOW_AT, LONG, x.low);
    octets::put_be(out, LOCAL_AT, LONG, x.local);
    octets::put_be(out, ZEROS_AT, WORD, 0);
    crc32::seal(t, out, SLOT_CHECKED);
}

// Whether b, the slot at 32, goes before a, the one at 0.
fn supersedes(a: Slot, b: Slot) -> bool
    ensures { result ≡ newer a b }
{
    (a.promise, a.low) < (b.promise, b.low)
}

// The current slot of a medium.
#[tactic(auto, unfolding(storage::specs::Slots::current_of))]
pub fn choose(t: &Tables, m: &[u8]) -> Current
    requires slots_size_in_bounds { slots_size ≤ length m.now }
    ensures { result ≡ current_of m.now }
{
    let first = &m[0..SLOT];
    let second = &m[SLOT..SLOTS];
    match (valid(t, first), valid(t, second)) {
        (false, false) => Current::Neither,
        (false, true) => Current::Second,
        (true, true) if supersedes(read(first), read(second)) => Current::Second,
        (true, _) => Current::First,
    }
}

// What the current slot holds.
pub fn held(c: Current, m: &[u8]) -> Slot
    requires { slots_size ≤ length m.now }
    ensures { result ≡ held_of c m.now }
{
    match c {
        Current::First => read(&m[0..SLOT]),
        Current::Second => read(&m[SLOT..SLOTS]),
        Current::Neither => Slot {
            promise: 0,
            low: 0,
            local: 0,
        },
    }
}

// Where the next slot write goes.
pub fn other(c: Current) -> usize
    ensures { result ≡ other_at c }
{
    match c {
        Current::First => SLOT,
        Current::Second | Current::Neither => 0,
    }
}
