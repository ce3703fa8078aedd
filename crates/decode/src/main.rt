// Decodes a capture of the stream on standard input, to its end. The arguments are the codes of the
// pictures that are marked, each two hexadecimal digits in upper or lower case; all twenty are where
// there is no argument (Request 101). Each argument that is no listed code is named on standard
// error, and then nothing is read and nothing printed:
//
//   decode: argument K is no listed picture code: WORD
//
// K counts from 1, and WORD is left out where it is longer than 4,095 bytes. Otherwise it prints
// first, before anything is read, the marked codes in 01's order, and an empty line:
//
//   marked pictures CODE CODE ..
//
// For each part that is complete it prints, at once, a block of lines that says what the part is,
// and an empty line:
//
//   part NUMBER complete at byte BYTE
//     picture  CODE NAME
//     kind     intensity, echo top or quality
//     time     YYYY-MM-DD hh:mm          of the header's minute (Request 111)
//     clock    CLOCK
//     mode     MODE                      the mode of status 2
//     radar    CODE NAME mode MODE       a line for each radar
//     NO ECHO  yes or no
//     level LEVEL  COUNT meshes  RANGE   of intensity and echo top, for each level that occurs
//     value VALUE  COUNT meshes  CAUSES  of quality, for each value that occurs
//
// At the end come how often each answer came, and how many bytes were read:
//
//   answer NUMBER  COUNT  MEANING
//   bytes COUNT
//
// Codes and quality values are hexadecimal, other numbers decimal. What must be printed for the
// sample, the file stdout, is made by tests/decode.py from the model of 01.
#![tactic(auto)]

mod arguments; // the pictures to mark
mod counts; // how many meshes are at a level
mod heading; // the line of the marked pictures
mod levels; // the lines of levels
mod names; // names of pictures and radars
mod part; // the block of a part
mod quality; // the lines of quality values
mod totals; // how often each answer came

use program_streams::reading::{Listener, feed_all};
use receiver_slice_call::calls::slice_call;
use receiver_state::answer::Answer;
use receiver_state::state::{State, fresh};
use std::io;
use std::io::Write;
use totals::Counts;

// The receiver's state and grid after the bytes read so far, how many these are, and how often each
// answer came
#[derive(Drop)]
struct Decoder<W> {
    out: W,
    state: State,
    grid: [u8; 20000],
    total: u64,
    counts: Counts,
}

impl<W: Write> Decoder<W> {
    // Counts an answer, and writes the block of a part that is complete
    fn report(&mut self, answer: Answer) -> io::Result<()> {
        let count = self.counts.count(answer);
        if let Answer::Complete(part) = answer {
            write!(self.out, "part {count} complete at byte {}", self.total)?;
            part::block(&mut self.out, part, &self.state, &self.grid)?;
        }
        Ok(())
    }

    // Writes the lines at the end
    fn finish(&mut self) -> io::Result<()> {
        self.counts.last_lines(&mut self.out, self.total)
    }
}

impl<W: Write> Listener for Decoder<W> {
    // Gives the bytes to the receiver, and reports its answers. A count of 64 bits stays at its end,
    // which no input reaches
    // Stays a while: each call says how many bytes it takes. Stays a loop of its own: one shared with
    // `listen` would take what is done at an answer as a closure that borrows the rest of the struct,
    // and a struct of state and grid alone would stand inside this one, which has both already;
    // neither is plainer
    #[tactic(auto, using(receiver_slice_call::proofs::Laws::count_most))]
    fn take(&mut self, bytes: &[u8]) -> io::Result<bool> {
        let mut rest = bytes;
        while !rest.is_empty() {
            let result = slice_call(self.state, &mut self.grid, rest);
            let count = result.count;
            if count == 0 {
                return Ok(false); // refused, which no call on this state and grid is
            }
            rest = &rest[count..];
            self.state = result.state;
            self.total = self.total.saturating_add(count as u64);
            self.report(result.answer)?;
        }
        Ok(true)
    }
}

// Nothing is decoded where an argument is wrong
fn main(rt: HostRuntime) -> io::Result<()> {
    let Some(marks) = arguments::read(&rt, &mut rt.stderr())? else {
        return Ok(());
    };
    let mut out = rt.stdout();
    heading::first_lines(&mut out, marks)?;
    let mut decoder = Decoder {
        out,
        state: fresh(marks),
        grid: [0; 20000],
        total: 0,
        counts: Counts::new(),
    };
    let mut buffer = [0u8; 65536];
    feed_all(&mut rt.stdin(), &mut buffer, &mut decoder)?;
    decoder.finish()
}
