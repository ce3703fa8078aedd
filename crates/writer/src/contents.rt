// Start and end blocks from byte 3 on.
ghost use Rattle.std.specs.Prelude.{◌≡◌, true, ◌≤◌, EachIndex, slice_index};
ghost use Rattle.text_calendar_spec.specs.Minutes.{is_minute};
ghost use Rattle.writer_spec.specs.Written.{time_text, start_contents, end_contents};

use text::bytes::put;
use text::header::WriterHeader;
use text_calendar::time::digits_of;
use text_status::status::{highest_mode, mode_byte};

// The time in ASCII, `YYYY.MM.DD.hh.mm`. Stays written out, place by place, as the definition has it: a
// loop would have to go around the four stops. Notice 49, 4(1)(1-1)(c)(イ) and (d)(イ)
fn time_text(digits: [u8; 12]) -> [u8; 16]
    requires { EachIndex digits (λ i. slice_index digits i ≤ 9) }
    ensures { result ≡ time_text digits }
{
    [
        digits[0] + 0x30,
        digits[1] + 0x30,
        digits[2] + 0x30,
        digits[3] + 0x30,
        0x2E,
        digits[4] + 0x30,
        digits[5] + 0x30,
        0x2E,
        digits[6] + 0x30,
        digits[7] + 0x30,
        0x2E,
        digits[8] + 0x30,
        digits[9] + 0x30,
        0x2E,
        digits[10] + 0x30,
        digits[11] + 0x30,
    ]
}

// The start block from byte 3 on: NULL, status bytes, clock, the time of the minute (Request 111),
// radars. Notice 49, 4(1)(1-1)(c)(イ) and (d)(イ)
pub(crate) fn start_contents(noecho: bool, header: WriterHeader, modes: [u8; 8]) -> [u8; 29]
    requires minute_value { is_minute header.minute ≡ true }
    requires clock_bound { header.clock ≤ 16383 }
    ensures { result ≡ start_contents noecho header modes }
{
    let status1 = if noecho { 0x08 } else { 0x00 };
    let status2 = mode_byte(highest_mode(modes));
    let high = (header.clock / 128) as u8;
    let low = (header.clock % 128) as u8;
    let minute = header.minute;
    let time = time_text(digits_of(minute));
    let radars = header.radars;
    let mut contents = [0u8; 29];
    put(&mut contents, 1, &[status1, status2, high, low]);
    put(&mut contents, 5, &time);
    put(&mut contents, 21, &radars);
    contents
}

// The end block from byte 3 on: modes, then `00`. Notice 49, 4(1)(1-1)(c)(ウ) and (d)(イ)
pub(crate) fn end_contents(modes: [u8; 8]) -> [u8; 29]
    ensures { result ≡ end_contents modes }
{
    let mut contents = [0; 29];
    for (i, mode) in modes.iter().enumerate() {
        contents[i] = mode_byte(*mode);
    }
    contents
}
