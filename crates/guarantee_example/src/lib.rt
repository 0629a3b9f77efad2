// Five lists that the guarantee speaks of, worked out. There is no code: read specs/Example.antt, specs/Checkpoint.antt, specs/InFlight.antt,
// specs/Recovered.antt and specs/Restored.antt. A crate of its own, since to work them out takes longer than to prove the guarantee.
#![tactic(auto)]
