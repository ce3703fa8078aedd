// Layer 1, codes as words: the code that a word of two hexadecimal digits stands for (Request 101).
#![tactic(auto)]

pub mod words; // a word of two hexadecimal digits
