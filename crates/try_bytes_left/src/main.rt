// Shows bytes left at every place of a stream. The stream on standard input, to its end, goes to a
// fresh receiver byte by byte, and the service is asked after each byte. What must be printed, the
// file stdout, is made by tests/differential.py from the second implementation in tests/second.
//
// Lines are decimal numbers with a space between two:
//   TOTAL ANSWER BEFORE AFTER SUM    for each answer but 0: the bytes read so far, with this one; its
//                                    answer; bytes left before it and after it
//   TOTAL LEFT SUM                   when the input has ended: the bytes read, and bytes left
// SUM is over the figure after each byte so far, so that those tell too that have no line: Adler-32,
// begun at 0, of the figures as two bytes each, high byte first.
#![tactic(auto)]

mod figures;

use crate::figures::Figures;
use program_streams::reading::{Listener, feed_all};
use receiver_byte_call::calls::byte_call;
use receiver_marks::marks::all_marks;
use receiver_state::answer::number_of;
use receiver_state::state::{State, fresh};
use std::io;
use std::io::Write;

// The receiver and the figures after some bytes, and where their lines go
#[derive(Drop)]
struct Shown<W> {
    out: W,
    state: State,
    grid: [u8; 20000],
    figures: Figures,
}

impl<W: Write> Shown<W> {
    // The line of a byte, by its answer and the bytes left before it; none for answer 0
    fn answer_line(&mut self, answer: u8, before: u16) -> io::Result<()> {
        if answer == 0 {
            return Ok(());
        }
        let Figures { total, left, sum } = self.figures;
        writeln!(self.out, "{total} {answer} {before} {left} {sum}")
    }

    // When the input has ended
    fn last_line(&mut self) -> io::Result<()> {
        let Figures { total, left, sum } = self.figures;
        writeln!(self.out, "{total} {left} {sum}")?;
        self.out.flush()
    }
}

impl<W: Write> Listener for Shown<W> {
    // Gives each byte to the receiver, and prints its line. No call is refused: the state is fresh or
    // a call's
    fn take(&mut self, bytes: &[u8]) -> io::Result<bool> {
        for b in bytes {
            let before = self.figures;
            let result = byte_call(self.state, &mut self.grid, *b);
            self.state = result.state;
            self.figures = before.after_byte(result.state);
            self.answer_line(number_of(result.answer), before.left)?;
        }
        Ok(true)
    }
}

fn main(rt: HostRuntime) -> io::Result<()> {
    let mut buffer = [0u8; 65536];
    let state = fresh(all_marks());
    let mut shown = Shown {
        out: rt.stdout(),
        state,
        grid: [0; 20000],
        figures: Figures::before_any(state),
    };
    feed_all(&mut rt.stdin(), &mut buffer, &mut shown)?;
    shown.last_line()
}
