// Layer 2: bytes between texts and whole start and end texts, many bytes at once.
#![tactic(auto)]

mod between; // bytes between texts
mod whole; // a whole start or end text
pub mod ahead; // both, one behind the other
