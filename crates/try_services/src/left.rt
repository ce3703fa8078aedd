// Bytes left in the text under way, along each of the three parts.
use crate::parts::make;
use crate::print::end_with;
use crate::sums::about_part;
use receiver_byte_call::calls::byte_call;
use receiver_marks::marks::all_marks;
use receiver_state::answer::Answer;
use receiver_state::state::{State, fresh};
use service_bytes_left::left::bytes_left;
use std::io;
use std::io::Write;

fn line<W: Write>(out: &mut W, taken: usize, s: State) -> io::Result<()> {
    write!(out, "taken {taken} {}", s.frame.place)?;
    end_with(out, b" left", bytes_left(s))
}

// Whether a place is shown: those before the kind is read and the first with it, one within, and the
// last three of a start or end text and of a data text of quality, of echo top and of intensity
fn is_shown(place: u16) -> bool {
    matches!(place, 1..=3 | 17 | 32..=34 | 103..=105 | 403..=405 | 2003..=2005)
}

// A line after each byte that is answered, and at places that are shown
fn feed_part<W: Write>(out: &mut W, grid: &mut [u8], bytes: &[u8]) -> io::Result<()> {
    let mut s = fresh(all_marks());
    for (i, b) in bytes.iter().enumerate() {
        let result = byte_call(s, grid, *b);
        s = result.state;
        if result.answer != Answer::Quiet || is_shown(s.frame.place) {
            line(out, i + 1, s)?;
        }
    }
    Ok(())
}

// An output of the longest part's length takes each
fn of_part<W: Write>(out: &mut W, part: u8) -> io::Result<()> {
    let mut output = [0u8; 20190];
    let Some(n) = make(part, true, &mut output) else {
        return Ok(());
    };
    let mut grid = [0u8; 20000];
    about_part(out, part, &output[..n])?;
    feed_part(out, &mut grid, &output[..n])
}

pub fn lines<W: Write>(out: &mut W) -> io::Result<()> {
    line(out, 0, fresh(all_marks()))?;
    for part in 1..=3 {
        of_part(out, part)?;
    }
    Ok(())
}
