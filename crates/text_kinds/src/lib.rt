// Layer 1, kinds: which part and text a kind names.
// Every function answers for every value of its parameters, by an equation with a definition of `text`.
#![tactic(auto)]

pub mod table; // kinds, and the parts and texts that they name
