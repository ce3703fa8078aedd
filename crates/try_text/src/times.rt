// The time as twelve digits and as a minute (Request 111).
use program_streams::numbers::{bytes_at, minute_at};
use program_streams::printing::{list, spaced, word};
use std::io;
use std::io::Write;
use text_calendar::time::{digits_of, time_check};

// The minute that twelve digits give, or that they are no date and time
pub fn check<W: Write>(out: &mut W, args: &[u8]) -> io::Result<()> {
    match time_check(bytes_at(args, 0)) {
        Some(minute) => spaced(out, minute),
        None => word(out, b" invalid"),
    }
}

// The digits of a minute
pub fn digits<W: Write>(out: &mut W, args: &[u8]) -> io::Result<()> {
    list(out, &digits_of(minute_at(args, 0)))
}
