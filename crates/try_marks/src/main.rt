// Shows the receiver with several marks (Request 101). Standard input has one byte N; N times four
// bytes, high byte first, which are numbers handed to fresh; and then a stream, to the input's end.
// An input of more than 65,536 bytes is cut there; where it is too short for its N numbers, nothing
// is printed. crates/try_marks/stdin and stdout come from the second implementation, in tests/second:
//   python3 tests/differential.py --corpus SEED LENGTH crates/try_marks
// tests/try_marks.py has the same from the model in Python.
//
// Lines are words and decimal numbers. For each of the N numbers in turn:
//   marks NUMBER SET RAW   the number; how many marks the fresh receiver has; how many are counted in
//                          the fresh state when its marks are overwritten by the number itself
//   slice TOTAL ANSWER     the stream to that receiver by slice calls, each given all bytes that are
//                          left: for each answer but 0; TOTAL is the bytes of the stream so far
//   held PART PICTURE CLOCK NOECHO MODE MINUTE RADARS MODES
//                          after answer 3: the minute, a signed count from 1 January 2000, 00:00
//                          (Request 111), 8 radars, 8 modes
//   grid RUNS              after that: all bytes of the grid, as COUNTxBYTE for each run of equal ones
//   byte TOTAL ANSWER      the same stream to another such receiver by byte calls: for each answer
//                          but 0, and after answer 3 the lines `held` and `grid`
//   end MARKS SET MARKS SET
//                          marks, and how many are counted, of the slice calls' last state and of the
//                          byte calls' last state
#![tactic(auto)]

mod runs;

use crate::runs::{by_bytes, by_slices};
use program_streams::read_full;
use receiver_state::state::{State, count_marks, fresh};
use std::io;
use std::io::Write;

// What fresh makes of the number, which is no mark at all where one beyond the twentieth is set, and
// the number itself in a state, where only the twenty are counted
fn marks_line<W: Write>(out: &mut W, number: u32) -> io::Result<()> {
    let state = fresh(number);
    let set = count_marks(state);
    let raw = count_marks(State {
        marks: number,
        ..state
    });
    writeln!(out, "marks {number} {set} {raw}")
}

// Marks of a state, and how many are counted, of the slice calls' and of the byte calls'
fn end_line<W: Write>(out: &mut W, sliced: State, single: State) -> io::Result<()> {
    writeln!(
        out,
        "end {} {} {} {}",
        sliced.marks,
        count_marks(sliced),
        single.marks,
        count_marks(single),
    )
}

// All lines of one number
fn of_number<W: Write>(out: &mut W, number: u32, stream: &[u8]) -> io::Result<()> {
    marks_line(out, number)?;
    let sliced = by_slices(out, fresh(number), stream)?;
    let single = by_bytes(out, fresh(number), stream)?;
    end_line(out, sliced, single)
}

// All lines of the input
fn of_input<W: Write>(out: &mut W, input: &[u8]) -> io::Result<()> {
    let [count, behind @ ..] = input else {
        return Ok(());
    };
    let Some((numbers, stream)) = behind.split_at_checked(4 * *count as usize) else {
        return Ok(());
    };
    for number in numbers.as_chunks().0 {
        of_number(out, u32::from_be_bytes(*number), stream)?;
    }
    out.flush()
}

fn main(rt: HostRuntime) -> io::Result<()> {
    let mut buffer = [0u8; 65536];
    let n = read_full(&mut rt.stdin(), &mut buffer)?;
    let mut out = rt.stdout();
    of_input(&mut out, &buffer[..n])
}
