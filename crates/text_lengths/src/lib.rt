// Layer 1, lengths: of blocks, parts and payloads.
// Every function answers for every value of its parameters, by an equation with a definition of `text`.
#![tactic(auto)]

pub mod block; // blocks, by kind
pub mod part; // parts and payloads
