// Layer 3, clock: steps from one clock to another.
// Every function answers for every value of its parameters, by an equation with a definition of specs/.
#![tactic(auto)]

pub mod steps; // clock steps
