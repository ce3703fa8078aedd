// Layer 2, the receiver's slice call. It goes past whole stretches of bytes at once, and equals 01's
// receiver as `receiver_spec` defines it, for every state, grid and slice.
#![tactic(auto)]

pub mod calls; // the slice call
