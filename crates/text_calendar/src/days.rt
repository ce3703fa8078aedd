// Days, dates and times of day.
ghost use Rattle.std.specs.Prelude.{◌≡◌};
ghost use Rattle.text_calendar_spec.specs.Calendar.{is_leap_year, days_in, is_moment, is_in_calendar};

use text_calendar_spec::time::Moment;

// Whether a year of the Gregorian calendar has a 29 February. Notice 49, 4(1)(1-1)(d)(イ)
#[tactic(auto, unfolding(text_calendar_spec::specs::Calendar::is_leap_year))]
pub fn is_leap_year(year: u32) -> bool
    ensures { result ≡ is_leap_year year }
{
    (year % 4 == 0) & (year % 100 != 0) | (year % 400 == 0)
}

// The days of a month; 31 where the number is no month. Notice 49, 4(1)(1-1)(d)(イ)
#[tactic(auto, unfolding(text_calendar_spec::specs::Calendar::days_in, general_laws::specs::Bytes::is_in))]
pub fn days_in(year: u32, month: u32) -> u32
    ensures { result ≡ days_in year month }
{
    match month {
        2 if is_leap_year(year) => 29,
        2 => 28,
        4 | 6 | 9 | 11 => 30,
        _ => 31,
    }
}

// Whether these are a Gregorian date of years 0 to 9999, an hour and a minute.
// Notice 49, 4(1)(1-1)(d)(イ)
// Stays one of five numbers: it is public, and answers for each five.
#[tactic(auto, unfolding(text_calendar_spec::specs::Calendar::is_moment, general_laws::specs::Bytes::all_of))]
pub fn is_moment(year: u32, month: u32, day: u32, hour: u32, minute: u32) -> bool
    ensures { result ≡ is_moment year month day hour minute }
{
    (year <= 9999)
        & (1 <= month)
        & (month <= 12)
        & (1 <= day)
        & (day <= days_in(year, month))
        & (hour <= 23)
        & (minute <= 59)
}

// The same of a date and time. Notice 49, 4(1)(1-1)(d)(イ)
pub(crate) fn is_in_calendar(t: Moment) -> bool
    ensures { result ≡ is_in_calendar t }
{
    is_moment(t.year, t.month, t.day, t.hour, t.minute)
}
