// What becomes of a message to a replica, and of each write that it makes.
#![tactic(auto)]

ghost use Rattle.std.specs.Prelude.{◌≡◌, ◌+◌, ◌≤◌, length};
ghost use Rattle.fate.specs.Fates.{leave};
ghost use Rattle.fate.specs.Numbered.{effect_of};

// What a cut write leaves: what was there, what was to be written, or given bytes.
#[derive(Clone, Copy)]
pub enum Left {
    Old,
    New,
    Torn,
}

// The cut carries the number of its write, from 1, and what that write leaves. The given bytes lie beside the fate.
#[derive(Clone, Copy)]
pub enum Fate {
    Answered,
    Lost,
    AnswerLost,
    Cut(u64, Left),
}

// What becomes of write k of a message, from 1.
#[tactic(auto, unfolding(crate::specs::Numbered::effect_of))]
pub fn effect(f: Fate, k: u64) -> Left
    ensures { result ≡ effect_of f k }
{
    match f {
        Fate::Answered | Fate::AnswerLost => Left::New,
        Fate::Lost => Left::Old,
        Fate::Cut(w, _) if k < w => Left::New,
        Fate::Cut(w, left) if k == w => left,
        Fate::Cut(_, _) => Left::Old,
    }
}

// Write k: the bytes of src at an offset, as far as the fate lets it happen. Every write to a medium goes through here.
#[tactic(auto, unfolding(crate::specs::Fates::leave))]
pub fn store(m: &mut [u8], at: usize, src: &[u8], given: &[u8], f: Fate, k: u64)
    requires src_in_bounds { at + length src.now ≤ length m.old }
    requires src_in_bounds_2 { length src.now ≤ length given.now }
    ensures { m.new ≡ leave (effect_of f k) given.now (record { at = at; bytes = src.now }) m.old }
{
    match effect(f, k) {
        Left::Old => {}
        Left::New => octets::put(m, at, src),
        Left::Torn => octets::put(m, at, &given[..src.len()]),
    }
}
