// Layer 1, codes: picture codes and radar codes.
// Every function answers for every value of its parameters, by an equation with a definition of `text`.
#![tactic(auto)]

pub mod table; // picture codes and radar codes
