// Layer 1, texts: the check byte, payload bytes, and the types of headers.
// Every function answers for every value of its parameters, by an equation with a definition of specs/.
#![tactic(auto)]

// Slices of bytes, for other crates; then, in its order, what of 01's "A text" stands here
pub mod bytes; // slices of bytes
pub mod check; // the check byte
pub mod header; // the headers of parts
pub mod payload; // payload bytes
