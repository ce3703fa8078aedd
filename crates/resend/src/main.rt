// Sends each complete part of the stream on standard input again, on standard output: the part that
// the writer makes of what the receiver holds after answer 3 (01, "The writer"). Whatever else came
// is left out. What must be written, the file stdout, is made by tests/differential.py from the
// second implementation in tests/second.
//
// The program names no library of ours but `terminal`, as a customer's does. So the loops that read
// and that give bytes to the receiver stand here once more.
#![tactic(auto)]

use std::io;
use std::io::{Read, Write};
use terminal::{
    Answer, State, all_marks, fresh, payload_length, slice_call, write_part, writer_header_of,
};

// The receiver's state and grid after the bytes read so far, and room for a part that is sent
#[derive(Drop)]
struct Relay<W> {
    out: W,
    state: State,
    grid: [u8; 20000],
    output: [u8; 20190],
}

impl<W: Write> Relay<W> {
    // Sends the part that is held; one that came complete is never refused, nor longer than its room
    fn send(&mut self, part: u8) -> io::Result<()> {
        let header = writer_header_of(self.state.header);
        let modes = self.state.modes;
        let n = payload_length(part).min(self.grid.len());
        if let Ok(long) = write_part(part, header, modes, &self.grid[..n], &mut self.output) {
            let long = long.min(self.output.len());
            self.out.write_all(&self.output[..long])?;
            self.out.flush()?;
        }
        Ok(())
    }

    // Gives the bytes to the receiver, sends each part as soon as it is complete, and says whether to
    // go on. Stays a while: each call says how many bytes it takes
    #[tactic(auto, using(terminal::proofs::Laws::count_most))]
    fn take(&mut self, bytes: &[u8]) -> io::Result<bool> {
        let mut rest = bytes;
        while !rest.is_empty() {
            let result = slice_call(self.state, &mut self.grid, rest);
            let count = result.count;
            if count == 0 {
                return Ok(false); // refused, which no call on this state and grid is
            }
            rest = &rest[count..];
            self.state = result.state;
            if let Answer::Complete(part) = result.answer {
                self.send(part)?;
            }
        }
        Ok(true)
    }

    // Takes all that is read. A proved loop has to end, and nothing says that the input does: the loop
    // has more turns than any run uses up
    fn take_all<R: Read>(&mut self, input: &mut R) -> io::Result<()> {
        let mut buffer = [0u8; 65536];
        for _ in 0..u64::MAX {
            let n = input.read(&mut buffer)?;
            if n == 0 || !self.take(&buffer[..n])? {
                break;
            }
        }
        Ok(())
    }
}

fn main(rt: HostRuntime) -> io::Result<()> {
    let mut relay = Relay {
        out: rt.stdout(),
        state: fresh(all_marks()),
        grid: [0; 20000],
        output: [0; 20190],
    };
    relay.take_all(&mut rt.stdin())
}
