// Layer 2: the marks of the pictures that a receiver takes (Request 101).
#![tactic(auto)]

pub mod marks; // which pictures are marked, and how many
