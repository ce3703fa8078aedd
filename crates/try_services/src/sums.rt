// Lines with a sum over bytes, by which a few numbers show many bytes.
use program_streams::printing::{end_line, spaced, word};
use program_streams::sums::adler;
use std::io;
use std::io::Write;

// How many bytes, and their sum
pub fn length_and_sum<W: Write>(out: &mut W, bytes: &[u8]) -> io::Result<()> {
    spaced(out, bytes.len())?;
    spaced(out, adler(bytes))
}

// A line that says which bytes the lines below it are about
pub fn about<W: Write>(out: &mut W, name: &[u8], bytes: &[u8]) -> io::Result<()> {
    word(out, name)?;
    length_and_sum(out, bytes)?;
    end_line(out)
}

// The same for a part, by its number
pub fn about_part<W: Write>(out: &mut W, part: u8, bytes: &[u8]) -> io::Result<()> {
    write!(out, "part {part}")?;
    length_and_sum(out, bytes)?;
    end_line(out)
}
