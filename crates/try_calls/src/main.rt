// Shows what the receiving calls return and leave. Standard input has records: a length of two
// bytes, high byte first, and so many bytes, a part or one with an altered byte. Each record is
// given in two slices, cut at each place of its second text's opening, and then byte by byte. State
// and grid go on from run to run, from fresh with all twenty marks on. After the records come calls
// that are refused, and a few that are not.
// What must be printed, the file stdout, is made by tests/try_calls.py from the model of 01.
//
// Lines are words and decimal numbers. CONTENTS is the header (minute, 8 radars, clock, picture code,
// mode, NO ECHO), 8 modes, and Adler-32 of the grid, begun at 0: all 0 after a drop. The minute is a
// signed count from 1 January 2000, 00:00 (Request 111); DIGITS are the twelve YYYYMMDDhhmm that wait
// in the state.
//   part LENGTH             a record, before its runs
//   cut K TAKEN ANSWER      from the slice call, where the cut is K bytes into the opening
//   byte TAKEN ANSWER       from the byte call; TAKEN counts the record's bytes taken so far
//   waiting TAKEN PLACE MINUTE DIGITS
//                           from the byte call, after each quiet byte that leaves place 8 to 25 of a
//                           start text; the minute is the header's
//   held CONTENTS           after answer 3
//   dropped CONTENTS        after an answer above 10
//   refused CALL NUMBER COUNT SEEN PLACE KIND PICTURE PART DUE CHECK SEEN-COUNT MARKS DIGITS CONTENTS
// Of the last, CALL is 1 for the byte call and 2 for the slice call; what follows COUNT is the state
// returned and the grid left. Where a call is not refused, the line begins with `answered`.
#![tactic(auto)]

mod digits;
mod refused_calls;
mod runs;

use crate::runs::Shown;
use program_streams::read_full;
use receiver_marks::marks::all_marks;
use receiver_state::state::fresh;
use std::io;
use std::io::Write;

fn record<W: Write>(shown: &mut Shown<W>, bytes: &[u8]) -> io::Result<()> {
    writeln!(shown.out, "part {}", bytes.len())?;
    shown.by_slices(bytes)?;
    shown.by_bytes(bytes)
}

// The length that two bytes say, or what is left after them where that is less
fn records<W: Write>(shown: &mut Shown<W>, input: &[u8]) -> io::Result<()> {
    let mut rest = input;
    // Stays a while: how long a record is stands in its own first bytes
    while let [high, low, behind @ ..] = rest {
        let said = u16::from_be_bytes([*high, *low]) as usize;
        let (bytes, next) = behind.split_at_checked(said).unwrap_or((behind, &[]));
        record(shown, bytes)?;
        rest = next;
    }
    Ok(())
}

fn main(rt: HostRuntime) -> io::Result<()> {
    let mut buffer = [0u8; 4096];
    let n = read_full(&mut rt.stdin(), &mut buffer)?;
    let mut shown = Shown {
        out: rt.stdout(),
        state: fresh(all_marks()),
        grid: [0; 20000],
    };
    records(&mut shown, &buffer[..n])?;
    refused_calls::states(&mut shown)?;
    refused_calls::marks(&mut shown)?;
    digits::states(&mut shown)?;
    refused_calls::lengths(&mut shown)?;
    shown.out.flush()
}
