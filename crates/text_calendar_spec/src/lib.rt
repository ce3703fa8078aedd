// Layer 1, calendar: what a date and time are, and minutes counted from 1 January 2000, 00:00 (Request
// 111). The definitions and their laws; of code there is the type alone.
#![tactic(auto)]

pub mod time; // a date and time by its numbers
