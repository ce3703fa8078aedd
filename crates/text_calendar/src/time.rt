// The observation time: its twelve digits, and the minute that they give (Request 111).
ghost use Rattle.std.specs.Prelude.{◌≡◌, ◌+◌, ◌<◌, leb};
ghost use Rattle.general_laws.specs.Bytes.{◌!◌, every};
ghost use Rattle.text_calendar_spec.specs.TimeDigits.{two_digits, time_check, digits_at};

use crate::days::is_in_calendar;
use crate::minutes::{minute_of, moment_of};
use text_calendar_spec::time::Moment;

// The number that the two digits at place i and the next give. Notice 49, 4(1)(1-1)(d)(イ)
fn two_digits(digits: [u8; 12], i: usize) -> u32
    requires { i < 11 }
    ensures { result ≡ two_digits (digits ! i) (digits ! (i + 1)) }
{
    (digits[i] as u32) * 10 + (digits[i + 1] as u32)
}

// Whether twelve numbers are digits, 0 to 9. Notice 49, 4(1)(1-1)(d)(イ)
pub fn are_digits(digits: [u8; 12]) -> bool
    ensures { result ≡ every (λ d. leb d 9) digits }
{
    digits.iter().all(|d| *d <= 9)
}

// The time check: the minute that twelve digits YYYYMMDDhhmm give, or none. Request 111; Notice 49,
// 4(1)(1-1)(d)(イ)
pub fn time_check(digits: [u8; 12]) -> Option<i64>
    ensures { result ≡ time_check digits }
{
    let t = Moment {
        year: two_digits(digits, 0) * 100 + two_digits(digits, 2),
        month: two_digits(digits, 4),
        day: two_digits(digits, 6),
        hour: two_digits(digits, 8),
        minute: two_digits(digits, 10),
    };
    let small = are_digits(digits);
    if small & is_in_calendar(t) {
        return Some(minute_of(t));
    }
    None
}

// The twelve digits YYYYMMDDhhmm of a minute; twelve 0 where it is not of the years 0000 to 9999.
// Request 111; Notice 49, 4(1)(1-1)(d)(イ)
pub fn digits_of(minute: i64) -> [u8; 12]
    ensures { result ≡ digits_at minute }
{
    let t = moment_of(minute);
    [
        (t.year / 1000) as u8,
        (t.year / 100 % 10) as u8,
        (t.year / 10 % 10) as u8,
        (t.year % 10) as u8,
        (t.month / 10) as u8,
        (t.month % 10) as u8,
        (t.day / 10) as u8,
        (t.day % 10) as u8,
        (t.hour / 10) as u8,
        (t.hour % 10) as u8,
        (t.minute / 10) as u8,
        (t.minute % 10) as u8,
    ]
}
