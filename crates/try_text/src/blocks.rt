// Bytes in a row, as blocks and payloads have them.
use program_streams::numbers::byte_at;
use program_streams::printing::list;
use std::io;
use std::io::Write;
use text::bytes::{are_zero, put};
use text::check::{check_byte, xor_all};
use text::payload::are_payload_bytes;

// All but the first
fn rest(args: &[u8]) -> &[u8] {
    match args {
        [_, rest @ ..] => rest,
        [] => args,
    }
}

// Stays a match over numbers, which come from standard input: the types of the functions differ, so
// that a table of them would be no plainer
pub fn result(asked: u8, args: &[u8]) -> u64 {
    match asked {
        60 => xor_all(args) as u64,
        61 => check_byte(args) as u64,
        62 => are_zero(args) as u64,
        _ => are_payload_bytes(byte_at(args, 0), rest(args)) as u64,
    }
}

// An output, eight bytes `AA` at first, when bytes were put into it at a place
pub fn put_into<W: Write>(out: &mut W, args: &[u8]) -> io::Result<()> {
    let mut output = [0xAAu8; 8];
    put(&mut output, byte_at(args, 0) as usize, rest(args));
    list(out, &output)
}
