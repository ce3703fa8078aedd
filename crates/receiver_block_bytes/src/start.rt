// A start block's byte: its rule, and the header with it. Byte 23 is none of these: with it the time is
// whole, and is judged and enters at once (crate::byte).
ghost use Rattle.std.specs.Prelude.{◌≡◌, ◌≢◌, ◌≤◌, ◌<◌};
ghost use Rattle.receiver_spec.specs.State.{no_digits};
ghost use Rattle.receiver_spec.specs.Contents.{start_takes, enter_header};

use crate::time::time_takes;
use text::header::Header;
use text_codes::table::is_radar_code;
use text_radars::places::radar_follows;
use text_status::status::{clock_of, mode_of, no_echo_of};

// The rule of byte i of a start block. Notice 49, 4(1)(1-1)(c)(イ) and (d)(イ)
#[tactic(auto, unfolding(receiver_spec::specs::Contents::start_takes, text::specs::StartBlock::has_mode, text::specs::StartBlock::is_clock_byte))]
pub(crate) fn start_takes(header: Header, i: u16, b: u8) -> bool
    requires le_i { (3 ≤ i) × (i < 32) }
    requires i_nonzero { i ≢ 23 }
    ensures { result ≡ start_takes header no_digits i b }
{
    match i {
        3 => b == 0,
        4 => true,
        5 => mode_of(b) != 0,
        6 | 7 => b <= 0x7F,
        8..=23 => time_takes(i - 8, b),
        24 => is_radar_code(b),
        _ => radar_follows(header.radars[(i - 25) as usize], b),
    }
}

// The header with byte i of the start block; the time's bytes wait elsewhere (Request 111).
// Notice 49, 4(1)(1-1)(c)(イ) and (d)(イ)
#[tactic(auto, unfolding(receiver_spec::specs::Contents::enter_header))]
pub(crate) fn enter_header(header: Header, i: u16, b: u8) -> Header
    requires le_i { (3 ≤ i) × (i < 32) }
    requires i_nonzero { i ≢ 23 }
    ensures { result ≡ enter_header header no_digits i b }
{
    match i {
        4 => Header {
            noecho: no_echo_of(b),
            ..header
        },
        5 => Header {
            mode: mode_of(b),
            ..header
        },
        6 => Header {
            clock: clock_of(b, 0),
            ..header
        },
        7 => Header {
            clock: clock_of((header.clock / 128 % 128) as u8, b),
            ..header
        },
        24..=31 => {
            let mut radars = header.radars;
            radars[(i - 24) as usize] = b;
            Header { radars, ..header }
        }
        _ => header,
    }
}
