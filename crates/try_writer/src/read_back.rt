// What was written, through the slice call of a fresh receiver.
use program_parts::lines::contents;
use program_streams::printing::{end_line, spaced, word};
use receiver_byte_call::calls::CallResult;
use receiver_marks::marks::all_marks;
use receiver_slice_call::calls::slice_call;
use receiver_state::answer::{Answer, number_of};
use receiver_state::state::fresh;
use std::io;
use std::io::Write;

fn took<W: Write>(out: &mut W, res: CallResult, grid: &[u8]) -> io::Result<()> {
    word(out, b"took")?;
    spaced(out, res.count)?;
    spaced(out, number_of(res.answer))?;
    end_line(out)?;
    if let Answer::Complete(_) = res.answer {
        word(out, b"held")?;
        contents(out, res.state, grid)?;
    }
    Ok(())
}

// Gives all bytes, by as many calls as that takes
pub fn read_back<W: Write>(out: &mut W, bytes: &[u8]) -> io::Result<()> {
    let mut grid = [0u8; 20000];
    let mut s = fresh(all_marks());
    let mut rest = bytes;
    // Stays a while: how many bytes are taken at a time is the call's to say
    while !rest.is_empty() {
        let result = slice_call(s, &mut grid, rest);
        if result.count == 0 {
            break;
        }
        s = result.state;
        let (_, behind) = rest.split_at(result.count);
        rest = behind;
        took(out, result, &grid)?;
    }
    Ok(())
}
