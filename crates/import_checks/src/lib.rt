// What import declines: its conditions, and the pair judged by them.
#![tactic(auto)]

pub mod judge;

ghost use Rattle.std.specs.Prelude.{◌≡◌};
ghost use Rattle.import_checks.specs.Refusals.{number_of};

// Why an import is declined, in the order in which it is checked.
#[derive(Clone, Copy)]
pub enum Reason {
    UnfitSlices,
    Unready,
    OtherOffset,
    UnfitRecord,
}

// The number by which import declines.
impl From<Reason> for u64 {
    ghost from_gives = { λ why number. number ≡ number_of why };

    fn from(why: Reason) -> u64 {
        match why {
            Reason::UnfitSlices => 1,
            Reason::Unready => 24,
            Reason::OtherOffset => 25,
            Reason::UnfitRecord => 26,
        }
    }
}
