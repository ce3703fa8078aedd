// Asks the public functions of layer 1, the readers of whole blocks aside, and prints what they
// answer. Standard input is requests, one behind the other, to its end. A request is a byte for what
// is asked, two bytes for the length of its arguments, high byte first, and the arguments. For each a
// line is printed: the byte in decimal, and then the results. A function of one, two, three or six
// bytes is asked for each so many bytes of the arguments; any other has all of them at once.
//
// Requests and lines are made by tests/try_text.py from the model of 01; what each byte asks
// stands there.
#![tactic(auto)]

mod answers;

// What is asked, by the arguments that it takes
mod blocks;
mod bytes;
mod dates;
mod pairs;
mod times;
mod writer_headers;

use crate::answers::line;
use program_streams::numbers::{byte_at, two_at};
use program_streams::read_full;
use std::io;
use std::io::{Read, Write};

// Reads the arguments that the head announces, as many as there are, and answers
fn request<R: Read, W: Write>(
    input: &mut R,
    out: &mut W,
    head: &[u8; 3],
    space: &mut [u8; 65536],
) -> io::Result<()> {
    let long = two_at(head, 1) as usize;
    let read = read_full(input, &mut space[..long])?;
    line(out, byte_at(head, 0), &space[..read])
}

// Stays a `for` with an end: a proved loop has to end, and nothing says that the input does. One that
// need not (`rt.forever()`) takes `Wait`, which no function here does; this one has more turns than any
// run uses up
fn requests<R: Read, W: Write>(
    input: &mut R,
    out: &mut W,
    space: &mut [u8; 65536],
) -> io::Result<()> {
    let mut head = [0u8; 3];
    for _ in 0..u64::MAX {
        if read_full(input, &mut head)? != 3 {
            break;
        }
        request(input, out, &head, space)?;
    }
    Ok(())
}

fn main(rt: HostRuntime) -> io::Result<()> {
    let mut space = [0u8; 65536];
    let mut out = rt.stdout();
    requests(&mut rt.stdin(), &mut out, &mut space)?;
    out.flush()
}
