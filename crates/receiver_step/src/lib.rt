// Layer 2: what one byte does to the receiver, without the grid.
#![tactic(auto)]

mod opening; // the opening, and the bytes between texts
mod head; // picture code and kind
pub mod decide; // what one byte does
