// The records of a fresh cluster, made once and lent on: where they are made in the same function as records are passed on, the compiler
// passes records on number by number.
ghost use Rattle.std.specs.Prelude.{◌≡◌};
ghost use Rattle.answers.specs.Answers.{nothing};

use cluster::Records;

#[derive(Clone, Copy)]
pub struct Blank {
    pub records: Records,
    pub ghost are_fresh: { records ≡ nothing.records },
}

impl Blank {
    pub fn new() -> Blank {
        Blank {
            records: crate::answer::nothing().records,
        }
    }
}
