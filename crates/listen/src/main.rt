// Listens to the stream on standard input, to its end, and prints a line for each answer but 0:
// bytes read so far, a space, the answer.
#![tactic(auto)]

ghost use Rattle.std.specs.Prelude.{◌≡◌, ◌++◌, OnOk, codes, decimal};
ghost use Rattle.std.specs.Io.KnownBytes.{Appends};

use program_streams::reading::{Listener, feed_all};
use receiver_marks::marks::all_marks;
use receiver_slice_call::calls::slice_call;
use receiver_state::answer::number_of;
use receiver_state::state::{State, fresh};
use std::io;
use std::io::Write;

// The receiver's state and grid after the bytes read so far, and how many these are
#[derive(Drop)]
struct Receiver<W> {
    out: W,
    state: State,
    grid: [u8; 20000],
    total: u64,
}

fn put_line<W: Write>(out: &mut W, total: u64, number: u8) -> io::Result<()>
    ensures { OnOk result (Appends (W.contents out.old) (W.contents out.new) (decimal total ++ codes " " ++ decimal number ++ codes "\n")) }
{
    writeln!(out, "{total} {number}")
}

impl<W: Write> Receiver<W> {
    // Gives the bytes to the receiver, writes the lines of its answers, and says whether to go on. A
    // count of 64 bits stays at its end, which no input reaches
    // Stays a while: each call says how many bytes it takes. Stays a loop of its own: one shared with
    // `decode` would take what is done at an answer as a closure that borrows the rest of the struct,
    // and a struct of state and grid alone would stand inside this one, which has both already;
    // neither is plainer
    #[tactic(auto, using(receiver_slice_call::proofs::Laws::count_most))]
    fn answer(&mut self, bytes: &[u8]) -> io::Result<bool> {
        let mut rest = bytes;
        while !rest.is_empty() {
            let result = slice_call(self.state, &mut self.grid, rest);
            let count = result.count;
            if count == 0 {
                return Ok(false); // refused, which no call on this state and grid is
            }
            rest = &rest[count..];
            self.state = result.state;
            self.total = self.total.saturating_add(count as u64);
            let number = number_of(result.answer);
            if number != 0 {
                put_line(&mut self.out, self.total, number)?;
            }
        }
        Ok(true)
    }
}

impl<W: Write> Listener for Receiver<W> {
    // The lines of all answers are out at the end, so that a trickling input is answered at once
    fn take(&mut self, bytes: &[u8]) -> io::Result<bool> {
        let goes_on = self.answer(bytes)?;
        self.out.flush()?;
        Ok(goes_on)
    }
}

fn main(rt: HostRuntime) -> io::Result<()> {
    let mut receiver = Receiver {
        out: rt.stdout(),
        state: fresh(all_marks()),
        grid: [0; 20000],
        total: 0,
    };
    let mut buffer = [0u8; 65536];
    feed_all(&mut rt.stdin(), &mut buffer, &mut receiver)
}
