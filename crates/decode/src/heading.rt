// The line at the front: which pictures are marked (Request 101).
use receiver_marks::marks::is_marked;
use std::io;
use std::io::Write;

// The first of 01's picture codes
const FIRST: u8 = 0xC0;

// The last of them
const LAST: u8 = 0xF1;

// Writes the line, with the marked codes in 01's order, which rises, and an empty one
pub fn first_lines<W: Write>(out: &mut W, marks: u32) -> io::Result<()> {
    write!(out, "marked pictures")?;
    for code in FIRST..=LAST {
        if is_marked(marks, code) {
            write!(out, " {code:02X}")?;
        }
    }
    write!(out, "\n\n")?;
    out.flush()
}
