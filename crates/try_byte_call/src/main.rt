// Gives the stream on standard input, to its end, to the receiver byte by byte, and prints a line
// for each answer but 0 that came: the answer, a space, how many bytes had it. It stands beside the
// listening program, which uses the slice call, so that the byte call can be timed.
#![tactic(auto)]

use program_streams::reading::{Listener, feed_all};
use receiver_byte_call::calls::byte_call;
use receiver_marks::marks::all_marks;
use receiver_state::answer::number_of;
use receiver_state::state::{State, fresh};
use std::io;
use std::io::Write;

// The receiver after some bytes, and how many of them had each answer, at the answer's own number.
// None is above 22: all pictures are marked here, so 51 never comes. No call is refused: the state is
// fresh or a call's.
// Grid and counts are lent by `main`, as locals of its own: inside this struct the grid, which nothing
// here reads, would be cleared in memory at every drop, and that would be timed with the call.
#[derive(Drop)]
struct Counted<'a> {
    state: State,
    grid: &'a mut [u8; 20000],
    counts: &'a mut [u64; 23],
}

impl<'a> Listener for Counted<'a> {
    // Gives each byte to the receiver, and counts the answers but 0. A count of 64 bits stays at its
    // end, which no input reaches
    fn take(&mut self, bytes: &[u8]) -> io::Result<bool> {
        for b in bytes {
            let result = byte_call(self.state, self.grid, *b);
            self.state = result.state;
            let number = number_of(result.answer) as usize;
            if number != 0 && number < 23 {
                self.counts[number] = self.counts[number].saturating_add(1);
            }
        }
        Ok(true)
    }
}

// From 1 on: answer 0 has no line, nor has a number that was no answer
fn print_counts<W: Write>(out: &mut W, counts: &[u64; 23]) -> io::Result<()> {
    for (number, count) in counts.iter().enumerate() {
        if number != 0 && *count != 0 {
            writeln!(out, "{number} {count}")?;
        }
    }
    Ok(())
}

fn main(rt: HostRuntime) -> io::Result<()> {
    let mut buffer = [0u8; 65536];
    let mut grid = [0u8; 20000];
    let mut counts = [0u64; 23];
    let mut counted = Counted {
        state: fresh(all_marks()),
        grid: &mut grid,
        counts: &mut counts,
    };
    feed_all(&mut rt.stdin(), &mut buffer, &mut counted)?;
    let mut out = rt.stdout();
    print_counts(&mut out, &counts)?;
    out.flush()
}
