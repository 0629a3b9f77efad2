// A recovery by a driver, request No. 9: which calls it makes, and that it arrives. There is no code here but what a recovery gets and gives; the crate driver
// runs it. Read specs/Recovery.antt, then proofs/Arrives.antt.
#![tactic(auto)]

ghost use Rattle.std.specs.Prelude.{◌≡◌, ◌*◌, length};
ghost use Rattle.storage.specs.Sizes.{place_size};

use cluster::{Answer, Records, Shape};

// What a running recovery is asked for: the server, the listed replicas, the fates as numbers (specs/Asked `fate_of`) and the bytes beside them: 72 beside each
// fate.
#[derive(Clone, Copy)]
pub struct Asked<'a> {
    pub shape: Shape,
    pub server: u64,
    pub listed: &'a [u64],
    pub fates: &'a [u64],
    pub given: &'a [u8],
    ghost given_len: { length given.now ≡ length fates.now * place_size },
}

// What a recovery gives: the records after it, its last reply, and how many calls it made.
#[derive(Clone, Copy)]
pub struct Recovered {
    pub records: Records,
    pub answer: Answer,
    pub calls: u64,
}
