// Layer 2: the receiver's state, and what stands beside it in a call.
#![tactic(auto)]

pub mod state; // the state, the fresh one, how many pictures are marked
pub mod answer; // answers, and their numbers
pub mod grid; // what a byte does to the grid
