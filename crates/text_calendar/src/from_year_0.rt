// Dates and times as days and minutes counted from 1 January 0000, 00:00, and the way back (Request
// 111). What is asked here lies within the years 0000 to 9999: callers see to that.
ghost use Rattle.std.specs.Prelude.{◌≡◌, true, ◌+◌, ◌≤◌, ◌<◌};
ghost use Rattle.text_calendar_spec.specs.Calendar.{is_in_calendar};
ghost use Rattle.text_calendar_spec.specs.Minutes.{days_of_year, days_before_year, days_of_months, day_of, minutes_before, year_at, moment_in, moment_at};

use crate::days::days_in;
use text_calendar_spec::time::Moment;

// The days before a year: 365 for each, and one more for each leap year. Request 111
fn days_before_year(year: u32) -> u32
    requires { year ≤ 10000 }
    ensures { result ≡ days_before_year year }
{
    year * 365 + (year + 3) / 4 + (year + 399) / 400 - (year + 99) / 100
}

// The days of a year's first months. Request 111
fn days_of_months(year: u32, count: u32) -> u32
    requires { count ≤ 12 }
    ensures { result ≡ days_of_months year count }
{
    let mut days = 0;
    for i in 0..count {
        days += days_in(year, i + 1);
    }
    days
}

// The days before a date. Request 111
fn day_of(t: Moment) -> u32
    requires { is_in_calendar t ≡ true }
    ensures { result ≡ day_of t.year t.month t.day }
{
    let years = days_before_year(t.year);
    let months = days_of_months(t.year, t.month - 1);
    years + months + (t.day - 1)
}

// The minutes before a date and time. Request 111
pub(crate) fn minutes_before(t: Moment) -> u64
    requires { is_in_calendar t ≡ true }
    ensures { result ≡ minutes_before t.year t.month t.day t.hour t.minute }
{
    let days = day_of(t);
    (days as u64) * 1440 + (t.hour as u64) * 60 + (t.minute as u64)
}

// A year that has begun on a day, and is its year or one of the two before it: 400 years have 146,097
// days. Request 111
fn year_near(day: u32) -> u32
    requires { day < 3652425 }
    ensures { (days_before_year result ≤ day) × (day < days_before_year (result + 3)) }
{
    let near = day * 400 / 146097;
    if near == 0 {
        return 0;
    }
    near - 1
}

// The year of a day: from one that is near it, year by year. Request 111
// Stays a while: a search that ends at the year; a `for` would need an end, and an answer past it.
fn year_at(day: u32) -> u32
    requires { day < 3652425 }
    ensures { result ≡ year_at day }
{
    let mut year = year_near(day);
    while days_before_year(year + 1) <= day {
        year += 1;
    }
    year
}

// The date and time of minute n of a day of a year: month by month. Request 111
// Stays a loop: a search that ends in the month; a `for` would need an answer for a day past December.
fn moment_in(year: u32, day: u32, n: u32) -> Moment
    requires { day < days_of_year year }
    ensures { result ≡ moment_in year day n }
{
    let mut rest = day;
    let mut past = 0;
    loop {
        let days = days_in(year, past + 1);
        if rest < days {
            return Moment {
                year,
                month: past + 1,
                day: rest + 1,
                hour: n / 60,
                minute: n % 60,
            };
        }
        rest -= days;
        past += 1;
    }
}

// The date and time of a minute. Request 111
pub(crate) fn moment_at(n: u64) -> Moment
    requires { n < 5259492000 }
    ensures { result ≡ moment_at n }
{
    let day = (n / 1440) as u32;
    let year = year_at(day);
    let before = days_before_year(year);
    moment_in(year, day - before, (n % 1440) as u32)
}
