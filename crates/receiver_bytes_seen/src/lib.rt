// Layer 2: the last bytes seen, and the opening among them.
#![tactic(auto)]

pub mod seen; // one more byte, the end of an opening, its due byte
pub mod behind; // the bytes seen and the check byte behind a stretch of bytes
