// The converter: a medium with places of 64 bytes, as it was before request No. 7, turned into one with places of 72 in a second slice.
#![tactic(auto)]

pub mod convert;

ghost use Rattle.std.specs.Prelude.{◌≡◌};

// The lengths or the slots are not those of a medium that can be converted.
#[derive(Clone, Copy)]
pub struct NotConvertible;

// The number by which the converter declines.
impl From<NotConvertible> for u64 {
    ghost from_gives = { λ why number. number ≡ 27 };

    fn from(why: NotConvertible) -> u64 {
        27
    }
}
