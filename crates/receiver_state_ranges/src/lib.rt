// Layer 2: which states are possible.
#![tactic(auto)]

pub mod digits; // the digits of the time that wait
pub mod ranges; // the ranges that refusal 2 names
