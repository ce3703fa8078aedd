// Layer 2, the receiver's byte call. It equals 01's receiver as `receiver_spec` defines it, for every state,
// grid and byte.
#![tactic(auto)]

pub mod payload; // a byte inside a payload
pub mod calls; // the byte call
