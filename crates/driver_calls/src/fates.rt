// The fate of a recovery's next call, and the bytes that lie beside it.
ghost use Rattle.std.specs.Prelude.{◌≡◌, cond, ◌*◌, ltb, length, get_or};
ghost use Rattle.octets.specs.Octets.{part};
ghost use Rattle.fate.specs.declared.Fate.TheVariants.{Answered};
ghost use Rattle.storage.specs.Sizes.{place_size};
ghost use Rattle.cluster.specs.Effects.{no_bytes};
ghost use Rattle.recovery.specs.Asked.{left_of, fate_of, fates_of};

use fate::{Fate, Left};
use storage::sizes::{PLACE, Place};

fn left_of(l: u64) -> Left
    ensures { result ≡ left_of l }
{
    match l {
        0 => Left::Old,
        1 => Left::New,
        _ => Left::Torn,
    }
}

// The fate that a number stands for. Numbers are lent, and no fates: driver `recover` and the definition `fates_of` have them.
fn fate_of(code: u64) -> Fate
    ensures { result ≡ fate_of code }
{
    match code {
        0 => Fate::Answered,
        1 => Fate::Lost,
        2 => Fate::AnswerLost,
        _ => Fate::Cut((code - 3) / 3, left_of((code - 3) % 3)),
    }
}

// The fate of the call after k others: answered once the list runs out.
pub fn fate_at(fates: &[u64], k: u64) -> Fate
    ensures { result ≡ get_or (fates_of fates.now) k Answered }
{
    match fates.get(k as usize) {
        Some(&code) => fate_of(code),
        None => Fate::Answered,
    }
}

// The bytes beside that fate, of so many: zeros once the list runs out.
pub fn given_at(fates: usize, given: &[u8], k: u64) -> Place
    requires { length given.now ≡ fates * place_size }
    ensures { result ≡ cond (ltb k fates) (part (k * place_size) place_size given.now) no_bytes }
{
    let mut out = [0; PLACE];
    let i = k as usize;
    if i < fates {
        let at = i * PLACE;
        out.copy_from_slice(&given[at..at + PLACE]);
    }
    out
}
