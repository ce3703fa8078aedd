// Layer 1: whole start blocks, read at once.
#![tactic(auto)]

pub mod read; // the start block, and the header that it gives
