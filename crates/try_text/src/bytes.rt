// Functions of one byte: codes, kinds, lengths, status bytes and modes.
use text_codes::table::{is_picture_code, is_radar_code};
use text_kinds::table::{is_end_kind, is_kind, is_start_kind, part_of_kind, text_of_kind};
use text_lengths::block::{block_length, data_block_length};
use text_lengths::part::payload_length;
use text_status::status::{mode_byte, mode_of, no_echo_of};

// Stays a match over numbers, which come from standard input: the types of the functions differ, so
// that a table of them would be no plainer
pub fn result(asked: u8, b: u8) -> u64 {
    match asked {
        1 => is_picture_code(b) as u64,
        2 => is_radar_code(b) as u64,
        3 => is_kind(b) as u64,
        4 => is_start_kind(b) as u64,
        5 => is_end_kind(b) as u64,
        6 => part_of_kind(b) as u64,
        7 => text_of_kind(b) as u64,
        8 => block_length(b) as u64,
        9 => data_block_length(b) as u64,
        10 => payload_length(b) as u64,
        11 => no_echo_of(b) as u64,
        12 => mode_of(b) as u64,
        _ => mode_byte(b) as u64,
    }
}
