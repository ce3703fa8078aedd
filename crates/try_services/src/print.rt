// What services answer, and the digits of a time.
use program_streams::printing::{end_line, spaced, word};
use refusals::refusal::Refusal;
use std::fmt::Display;
use std::io;
use std::io::Write;

// A service's refusal, by its row in 01
pub fn refused<W: Write>(out: &mut W, refusal: Refusal) -> io::Result<()> {
    word(out, b" refused")?;
    spaced(out, u8::from(refusal))
}

// To the line's end: a word and the number that was found, or the refusal
pub fn end_with<W: Write, N: Display + Drop>(
    out: &mut W,
    name: &[u8],
    found: Result<N, Refusal>,
) -> io::Result<()> {
    match found {
        Ok(n) => {
            word(out, name)?;
            spaced(out, n)?;
        }
        Err(refusal) => refused(out, refusal)?,
    }
    end_line(out)
}

// The digits of a time, each as a byte in hexadecimal, with a space before the first (Request 111)
pub fn twelve<W: Write>(out: &mut W, digits: [u8; 12]) -> io::Result<()> {
    word(out, b" ")?;
    for digit in digits {
        write!(out, "{digit:02X}")?;
    }
    Ok(())
}
