// Layer 1, radars: the rules of radar codes and modes, by place.
// Every function answers for every value of its parameters, by an equation with a definition of `text`.
#![tactic(auto)]

pub mod places; // radar codes and modes, by place
