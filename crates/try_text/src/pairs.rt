// Functions of two bytes: of a part, of the clock, and of a radar's place.
use text::payload::is_payload_byte;
use text_kinds::table::kind_of;
use text_lengths::part::{data_texts, part_length};
use text_radars::places::{is_mode_byte, is_mode_for, radar_follows};
use text_status::status::clock_of;

// Stays a match over numbers, which come from standard input: the types of the functions differ, so
// that a table of them would be no plainer
pub fn result(asked: u8, a: u8, b: u8) -> u64 {
    match asked {
        20 => kind_of(a, b) as u64,
        21 => data_texts(a, b == 1) as u64,
        22 => part_length(a, b == 1) as u64,
        23 => is_payload_byte(a, b) as u64,
        24 => clock_of(a, b) as u64,
        25 => radar_follows(a, b) as u64,
        26 => is_mode_byte(a, b) as u64,
        _ => is_mode_for(a, b) as u64,
    }
}
