// The start block, 32 bytes, and the header that it gives.
ghost use Rattle.std.specs.Prelude.{◌≡◌, true, eqb};
ghost use Rattle.general_laws.specs.Bytes.{◌!◌, every};
ghost use Rattle.text_calendar_spec.specs.TimeDigits.{minute_in};
ghost use Rattle.text.specs.StartBlock.{is_digit, digit_places, stop_places, digits_of, time_text_of, radars_of, header_of};
ghost use Rattle.text_start_block.specs.Read.{start_read, start_front};

use text::header::Header;
use text_calendar::time::time_check;
use text_codes::table::is_picture_code;
use text_kinds::table::is_start_kind;
use text_radars::places::is_radar_list;
use text_status::status::{clock_of, mode_of, no_echo_of};

// Whether digits stand where the time has them. Notice 49, 4(1)(1-1)(c)(イ) and (d)(イ)
// Stays twelve tests: with `all` over a table of the places the proof did not close.
#[tactic(auto, unfolding(text::specs::StartBlock::is_digit, general_laws::specs::Bytes::every))]
fn has_digits(chars: &[u8; 16]) -> bool
    ensures { result ≡ every (λ i. is_digit (chars.now ! i)) digit_places }
{
    let year = chars[0].is_ascii_digit()
        & chars[1].is_ascii_digit()
        & chars[2].is_ascii_digit()
        & chars[3].is_ascii_digit();
    let day = chars[5].is_ascii_digit()
        & chars[6].is_ascii_digit()
        & chars[8].is_ascii_digit()
        & chars[9].is_ascii_digit();
    let minute = chars[11].is_ascii_digit()
        & chars[12].is_ascii_digit()
        & chars[14].is_ascii_digit()
        & chars[15].is_ascii_digit();
    year & day & minute
}

// Whether stops stand where the time has them. Notice 49, 4(1)(1-1)(c)(イ) and (d)(イ)
#[tactic(auto, unfolding(general_laws::specs::Bytes::every))]
fn has_stops(chars: &[u8; 16]) -> bool
    ensures { result ≡ every (λ i. eqb (chars.now ! i) 0x2E) stop_places }
{
    (chars[4] == b'.') & (chars[7] == b'.') & (chars[10] == b'.') & (chars[13] == b'.')
}

// The twelve digits of the time, as numbers. Notice 49, 4(1)(1-1)(c)(イ) and (d)(イ)
// Stays twelve differences: with `map` over a table of the places the proof did not close.
#[tactic(auto, unfolding(text::specs::StartBlock::digits_of, text::specs::StartBlock::is_digit, general_laws::specs::Bytes::every))]
fn digits_of(chars: &[u8; 16]) -> [u8; 12]
    requires { every (λ i. is_digit (chars.now ! i)) digit_places ≡ true }
    ensures { result ≡ digits_of chars.now }
{
    [
        chars[0] - b'0',
        chars[1] - b'0',
        chars[2] - b'0',
        chars[3] - b'0',
        chars[5] - b'0',
        chars[6] - b'0',
        chars[8] - b'0',
        chars[9] - b'0',
        chars[11] - b'0',
        chars[12] - b'0',
        chars[14] - b'0',
        chars[15] - b'0',
    ]
}

// Where the time stands. Notice 49, 4(1)(1-1)(c)(イ)
fn time_text_of(block: &[u8; 32]) -> &[u8; 16]
    ensures { result.now ≡ time_text_of block.now }
{
    block[8..24].try_into().unwrap()
}

// Where the radars stand. Notice 49, 4(1)(1-1)(c)(イ)
fn radars_of(block: &[u8; 32]) -> [u8; 8]
    ensures { result ≡ radars_of block.now }
{
    block[24..].try_into().unwrap()
}

// The header of a block whose time gives this minute. Request 111; Notice 49, 4(1)(1-1)(c)(イ) and (d)(イ)
#[tactic(auto, unfolding(text::specs::StartBlock::header_of))]
fn header_of(block: &[u8; 32], minute: i64) -> Header
    requires { minute ≡ minute_in (digits_of (time_text_of block.now)) }
    ensures { result ≡ header_of block.now }
{
    Header {
        minute,
        radars: radars_of(block),
        clock: clock_of(block[6], block[7]),
        picture: block[1],
        mode: mode_of(block[5]),
        noecho: no_echo_of(block[4]),
    }
}

// The rules of bytes 0 to 7. Notice 49, 4(1)(1-1)(c)(イ) and (d)(イ)
#[tactic(auto, unfolding(crate::specs::Read::start_front, text::specs::StartBlock::has_mode, text::specs::StartBlock::is_clock_byte, general_laws::specs::Bytes::all_of))]
fn is_start_front(block: &[u8; 32]) -> bool
    ensures { result ≡ start_front block.now }
{
    let known = is_picture_code(block[1]) & is_start_kind(block[2]);
    let moded = mode_of(block[5]) != 0;
    (block[0] == 0xFD) & known & (block[3] == 0) & moded & (block[6] <= 0x7F) & (block[7] <= 0x7F)
}

// The header of 32 bytes, where they keep every rule. The time is worked out once (Request 111).
// Notice 49, 4(1)(1-1)(c)(イ) and (d)(イ)
fn read_whole(block: &[u8; 32]) -> Option<Header>
    ensures { result ≡ start_read block.now }
{
    if !is_start_front(block) {
        return None;
    }
    let chars = time_text_of(block);
    if !(has_digits(chars) & has_stops(chars)) {
        return None;
    }
    let time = time_check(digits_of(chars));
    let minute = time?;
    let header = header_of(block, minute);
    if !is_radar_list(header.radars) {
        return None;
    }
    Some(header)
}

// Reads a start block: its header, where it keeps every rule. Notice 49, 4(1)(1-1)(c)(イ) and (d)(イ).
// 4(1)(1-2) and 4(2) refer to these
pub fn read_start(block: &[u8]) -> Option<Header>
    ensures { result ≡ start_read block.now }
{
    match block.try_into() {
        Ok(whole) => read_whole(whole),
        Err(_) => None,
    }
}
