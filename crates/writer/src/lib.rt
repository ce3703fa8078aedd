// Layer 2, the writer: one part onto the line, for the relay in the same box.
// What it writes is 01's part as `writer_spec` defines it, for all input.
#![tactic(auto)]

mod one_text; // one text, into its own stretch of the output
mod contents; // start and end blocks from byte 3 on
mod data; // data texts, and the rule of a payload
pub mod part; // the writer
