// Hands the writer what it is to write, shows what it returned and left, and gives what was written to
// a fresh receiver. Standard input is calls, one behind the other, to its end: a head of 32 bytes, which
// call.rt describes, and the payload. An output is all `AA` before the writer has it. Lines are words
// and decimal numbers:
//   wrote LENGTH SUM
//   took COUNT ANSWER     from a slice call, on what was written
//   held CONTENTS         after answer 3: the header (minute, 8 radars, clock, picture code, mode,
//                         NO ECHO), 8 modes, the grid's sum
//   refused NUMBER SUM
// The minute is a signed count from 1 January 2000, 00:00 (Request 111). A sum is Adler-32, begun at
// 0. SUM is over the whole output as the call left it, so that it tells whether the bytes behind a
// part, and all bytes at a refusal, are still `AA`.
//
// Calls and lines are made by tests/try_writer.py from the model of 01.
#![tactic(auto)]

mod call;
mod read_back;

use crate::call::call;
use program_streams::numbers::two_at;
use program_streams::read_full;
use std::io;
use std::io::{Read, Write};

// Reads the payload that the head announces, as much as there is, and makes the call
fn request<R: Read, W: Write>(
    input: &mut R,
    out: &mut W,
    head: &[u8; 32],
    space: &mut [u8; 65536],
) -> io::Result<()> {
    let long = two_at(head, 30) as usize;
    let read = read_full(input, &mut space[..long])?;
    call(out, head, &space[..read])
}

// Stays a `for` with an end: a proved loop has to end, and nothing says that the input does. One that
// need not (`rt.forever()`) takes `Wait`, which no function here does; this one has more turns than any
// run uses up
fn requests<R: Read, W: Write>(
    input: &mut R,
    out: &mut W,
    space: &mut [u8; 65536],
) -> io::Result<()> {
    let mut head = [0u8; 32];
    for _ in 0..u64::MAX {
        if read_full(input, &mut head)? != 32 {
            break;
        }
        request(input, out, &head, space)?;
    }
    Ok(())
}

fn main(rt: HostRuntime) -> io::Result<()> {
    let mut space = [0u8; 65536];
    let mut out = rt.stdout();
    requests(&mut rt.stdin(), &mut out, &mut space)?;
    out.flush()
}
