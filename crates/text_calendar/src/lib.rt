// Layer 1, calendar: the observation time, as twelve digits and as a minute (Request 111).
// Every function answers for every value of its parameters, by an equation with a definition of
// `text_calendar_spec`.
#![tactic(auto)]

pub mod days; // leap years, months, dates
mod from_year_0; // dates and times as minutes from 1 January 0000, 00:00, and back
pub mod minutes; // minutes from 1 January 2000, 00:00
pub mod time; // the twelve digits of a time
