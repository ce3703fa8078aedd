// Years, months and moments. A year has two bytes, and each other number one.
use program_streams::numbers::{byte_at, two_at};
use text_calendar::days::{days_in, is_leap_year, is_moment};

// Stays a match over numbers, which come from standard input: the types of the functions differ, so
// that a table of them would be no plainer
pub fn result(asked: u8, args: &[u8]) -> u64 {
    let year = two_at(args, 0) as u32;
    let month = byte_at(args, 2) as u32;
    let day = byte_at(args, 3) as u32;
    let hour = byte_at(args, 4) as u32;
    let minute = byte_at(args, 5) as u32;
    match asked {
        40 => is_leap_year(year) as u64,
        41 => days_in(year, month) as u64,
        _ => is_moment(year, month, day, hour, minute) as u64,
    }
}
