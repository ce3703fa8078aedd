// Layer 1, signed numbers, as a minute is (Request 111): for programs that print or read one.
// Every function answers for every value of its parameters.
#![tactic(auto)]

pub mod numbers; // how far from 0; the number that 64 bits are
