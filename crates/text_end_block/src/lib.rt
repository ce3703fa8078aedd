// Layer 1: whole end blocks, read at once.
#![tactic(auto)]

pub mod read; // the end block, and the modes that it gives
