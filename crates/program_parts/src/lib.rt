// What the programs print of a receiver: of its state, and of a part that it has completed.
#![tactic(auto)]

pub mod lines; // a frame's numbers; what a state and a grid hold; the lines of a complete part
