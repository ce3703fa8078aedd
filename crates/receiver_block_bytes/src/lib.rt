// Layer 2: block bytes from byte 3 on: their rules, and where they enter.
#![tactic(auto)]

mod time; // the time, a start block's bytes 8 to 23
mod start; // a start block's byte, and the header
mod end; // an end block's byte, and the modes
pub mod byte; // a block byte, by its kind
