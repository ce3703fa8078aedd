// Layer 2: what a byte leaves behind it.
#![tactic(auto)]

pub mod decision; // the next state, the answer and the effect on the grid
