// Layer 1, status: status bytes, mode bytes and the clock.
// Every function answers for every value of its parameters, by an equation with a definition of `text`.
#![tactic(auto)]

pub mod status; // status bytes, mode bytes and the clock
