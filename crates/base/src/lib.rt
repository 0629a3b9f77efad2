// Definitions and laws that several crates share: tests, counts, highest values and arrays over the numbers below n. There is no code.
#![tactic(auto)]
