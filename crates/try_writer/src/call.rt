// One call of the writer. Its head is the part (1 byte), the minute (8, in two's complement; Request
// 111), radars (8), clock (2), picture code (1), modes (8), the output's length (2) and the payload's
// length (2); of a number's bytes the high one comes first.
use crate::read_back::read_back;
use program_streams::numbers::{byte_at, bytes_at, minute_at, two_at};
use program_streams::printing::{end_line, spaced, word};
use program_streams::sums::adler;
use refusals::refusal::row_of;
use std::io;
use std::io::Write;
use text::header::WriterHeader;
use writer::part::write_part;

// Stays beside the one of `try_text`: one for both would be in `program_streams`, which knows bytes and
// numbers and no header
fn header(head: &[u8; 32]) -> WriterHeader {
    WriterHeader {
        minute: minute_at(head, 1),
        radars: bytes_at(head, 9),
        clock: two_at(head, 17),
        picture: byte_at(head, 19),
    }
}

// What came of a call, a number, and the sum over the whole output as the call left it
fn line<W: Write>(out: &mut W, what: &[u8], n: usize, output: &[u8]) -> io::Result<()> {
    word(out, what)?;
    spaced(out, n)?;
    spaced(out, adler(output))?;
    end_line(out)
}

fn written<W: Write>(out: &mut W, long: usize, output: &[u8]) -> io::Result<()> {
    line(out, b"wrote", long, output)?;
    match output.get(..long) {
        Some(part) => read_back(out, part),
        None => Ok(()),
    }
}

// The call, and the lines for what it returned and left
fn attempt<W: Write>(
    out: &mut W,
    head: &[u8; 32],
    payload: &[u8],
    output: &mut [u8],
) -> io::Result<()> {
    let answer = write_part(
        byte_at(head, 0),
        header(head),
        bytes_at(head, 20),
        payload,
        output,
    );
    match answer {
        Ok(long) => written(out, long, output),
        Err(refusal) => line(out, b"refused", row_of(refusal) as usize, output),
    }
}

pub fn call<W: Write>(out: &mut W, head: &[u8; 32], payload: &[u8]) -> io::Result<()> {
    let mut output = [0xAAu8; 65536];
    let long = two_at(head, 28) as usize;
    attempt(out, head, payload, &mut output[..long])
}
