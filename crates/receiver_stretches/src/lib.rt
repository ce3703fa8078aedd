// Layer 2: the bytes of a slice one by one, without a function of its own: what it means to go past
// many of them at once.
#![tactic(auto)]

pub mod stretch; // how far a stretch of bytes goes, and the state behind it
