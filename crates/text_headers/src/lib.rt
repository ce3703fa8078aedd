// Layer 1, headers: the rule of what a writer takes.
// Every function answers for every value of its parameters, by an equation with a definition of `text`.
#![tactic(auto)]

pub mod writer_input; // headers and modes that a writer takes
