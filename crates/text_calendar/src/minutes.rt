// Minutes counted from 1 January 2000, 00:00 (Request 111).
ghost use Rattle.std.specs.Prelude.{◌≡◌, true, ◌^◌, ◌<◌, nat_abs, pos, ◌+ℤ◌};
ghost use Rattle.std.proofs.Math.IntN.{sub_ℕ};
ghost use Rattle.text_calendar_spec.specs.Calendar.{is_in_calendar};
ghost use Rattle.text_calendar_spec.specs.Minutes.{epoch, minute_of, is_minute, moment_of};

use crate::from_year_0::{minutes_before, moment_at};
use text_calendar_spec::time::Moment;

// The minutes before 1 January 2000, 00:00. Request 111
const EPOCH: i64 = 1051898400;

// The minute after the last of 9999. Request 111
const END: i64 = 4207593600;

// No date and time: all 0. Request 111
const NO_MOMENT: Moment = Moment {
    year: 0,
    month: 0,
    day: 0,
    hour: 0,
    minute: 0,
};

// From 1 January 2000 instead of 1 January 0000. Request 111
fn from_epoch(n: u64) -> i64
    requires { n < 2 ^ 62 }
    ensures { result ≡ sub_ℕ n epoch }
{
    (n as i64) - EPOCH
}

// The minute of a date and time. Request 111
pub(crate) fn minute_of(t: Moment) -> i64
    requires { is_in_calendar t ≡ true }
    ensures { result ≡ minute_of t }
{
    from_epoch(minutes_before(t))
}

// Whether a minute is one of the years 0000 to 9999. Request 111
pub fn is_minute(minute: i64) -> bool
    ensures { result ≡ is_minute minute }
{
    (-EPOCH <= minute) & (minute < END)
}

// From 1 January 0000 instead of 1 January 2000. Request 111
fn from_year_0(minute: i64) -> u64
    requires { is_minute minute ≡ true }
    ensures { result ≡ nat_abs (minute +ℤ pos epoch) }
{
    (minute + EPOCH) as u64
}

// The date and time of a minute; all 0, which is none, where it is not of the years 0000 to 9999.
// Request 111
pub fn moment_of(minute: i64) -> Moment
    ensures { result ≡ moment_of minute }
{
    if is_minute(minute) {
        return moment_at(from_year_0(minute));
    }
    NO_MOMENT
}
