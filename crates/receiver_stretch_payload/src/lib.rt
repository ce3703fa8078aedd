// Layer 2: payload, many bytes at once.
#![tactic(auto)]

pub mod ahead; // the payload bytes that a slice begins with
