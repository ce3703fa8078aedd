// Layer 2: a byte of a text whose kind has been read.
#![tactic(auto)]

mod last; // the text's last byte
pub mod by_place; // block, `FE`, check byte, `FF`
