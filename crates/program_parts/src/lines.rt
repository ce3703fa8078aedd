// Numbers and lines of a receiver's state and grid.
//
//   frame_numbers(out, frame)            place, kind, picture code, part, due text, check byte, count
//   contents(out, state, grid)           header, modes and the grid's sum, to the line's end
//   call_lines(out, name, total, res, grid)
//                                        of a call's result: a line of its answer, unless that is 0; and
//                                        after answer 3 a line of header and modes, and one of the grid
ghost use Rattle.std.specs.Prelude.{◌≡◌, true, [], OnOk};
ghost use Rattle.std.specs.Io.KnownBytes.{Appends};
ghost use Rattle.receiver_state.specs.Meaning.{number_of};
ghost use Rattle.program_parts.specs.Printed.{frame_text, time_text, codes_text, sum_text, contents_text, has_line_alone, answer_line};

use program_streams::printing::{end_line, list, spaced, word};
use program_streams::sums::adler;
use receiver_byte_call::calls::CallResult;
use receiver_state::answer::{Answer, number_of};
use receiver_state::state::{Frame, State};
use std::io;
use std::io::Write;
use text::header::Header;

// A frame's numbers, each with a space before it.
pub fn frame_numbers<W: Write>(out: &mut W, f: Frame) -> io::Result<()>
    ensures { OnOk result (Appends (W.contents out.old) (W.contents out.new) (frame_text f)) }
{
    spaced(out, f.place)?;
    list(out, &[f.kind, f.picture, f.part, f.due, f.check, f.count])
}

// What is held: header (minute, radars, clock, picture code, mode, NO ECHO), modes and the grid's
// sum, to the line's end.
pub fn contents<W: Write>(out: &mut W, s: State, grid: &[u8]) -> io::Result<()>
    ensures { OnOk result (Appends (W.contents out.old) (W.contents out.new) (contents_text s grid.now)) }
{
    time_and_radars(out, &s.header)?;
    codes_of(out, &s.header)?;
    modes_and_sum(out, &s.modes, grid)
}

// The minute (Request 111) and the radars of a header.
fn time_and_radars<W: Write>(out: &mut W, header: &Header) -> io::Result<()>
    ensures { OnOk result (Appends (W.contents out.old) (W.contents out.new) (time_text header.now)) }
{
    spaced(out, header.minute)?;
    list(out, &header.radars)
}

// Clock, picture code, mode and NO ECHO of a header.
fn codes_of<W: Write>(out: &mut W, header: &Header) -> io::Result<()>
    ensures { OnOk result (Appends (W.contents out.old) (W.contents out.new) (codes_text header.now)) }
{
    spaced(out, header.clock)?;
    list(out, &[header.picture, header.mode, header.noecho as u8])
}

// Modes and the grid's sum, to the line's end.
fn modes_and_sum<W: Write>(out: &mut W, modes: &[u8; 8], grid: &[u8]) -> io::Result<()>
    ensures { OnOk result (Appends (W.contents out.old) (W.contents out.new) (sum_text modes.now grid.now)) }
{
    list(out, modes)?;
    spaced(out, adler(grid))?;
    end_line(out)
}

// All bytes of the grid, as runs of equal ones.
fn grid_line<W: Write>(out: &mut W, grid: &[u8]) -> io::Result<()> {
    word(out, b"grid")?;
    for run in grid.chunk_by(|a, b| a == b) {
        write!(out, " {}x{}", run.len(), run[0])?;
    }
    end_line(out)
}

// Part, picture code, clock, NO ECHO, mode, minute (Request 111), radars and modes, by place.
fn header_line<W: Write>(out: &mut W, part: u8, s: State) -> io::Result<()> {
    let header = s.header;
    word(out, b"held")?;
    list(out, &[part, header.picture])?;
    spaced(out, header.clock)?;
    list(out, &[header.noecho as u8, header.mode])?;
    spaced(out, header.minute)?;
    list(out, &header.radars)?;
    list(out, &s.modes)?;
    end_line(out)
}

// What a call returned and left, where `total` bytes are taken with it: a line of its answer, unless
// that is 0, and at answer 3, where the receiver holds a part, the lines of this.
pub fn call_lines<W: Write>(
    out: &mut W,
    name: &[u8],
    total: u64,
    res: CallResult,
    grid: &[u8],
) -> io::Result<()>
    ensures quiet { OnOk result (number_of res.answer ≡ 0 → Appends (W.contents out.old) (W.contents out.new) []) }
    ensures alone { OnOk result (has_line_alone res.answer ≡ true → Appends (W.contents out.old) (W.contents out.new) (answer_line name.now total res.answer)) }
{
    let answer = number_of(res.answer);
    if answer == 0 {
        return Ok(());
    }
    word(out, name)?;
    writeln!(out, " {total} {answer}")?;
    if let Answer::Complete(part) = res.answer {
        header_line(out, part, res.state)?;
        grid_line(out, grid)?;
    }
    Ok(())
}
