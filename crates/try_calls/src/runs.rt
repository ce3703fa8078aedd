// A record through the slice call, cut at each place of an opening, and through the byte call.
ghost use Rattle.std.specs.Prelude.{◌≤◌};

use program_parts::lines::contents;
use program_streams::printing::{end_line, list, spaced, word};
use receiver_byte_call::calls::byte_call;
use receiver_slice_call::calls::slice_call;
use receiver_state::answer::{Answer, number_of};
use receiver_state::state::State;
use std::io;
use std::io::Write;
use text_kinds::table::is_start_kind;

// What the last call returned and left, and where the lines go
#[derive(Drop)]
pub struct Shown<W> {
    pub out: W,
    pub state: State,
    pub grid: [u8; 20000],
}

impl<W: Write> Shown<W> {
    fn contents(&mut self) -> io::Result<()> {
        contents(&mut self.out, self.state, &self.grid)
    }

    // Ends the line of an answer, and says what is held after answer 3 and after a drop
    fn after(&mut self, taken: usize, answer: Answer) -> io::Result<()> {
        let number = number_of(answer);
        writeln!(self.out, " {taken} {number}")?;
        match answer {
            Answer::Complete(_) => {
                word(&mut self.out, b"held")?;
                self.contents()
            }
            Answer::Dropped(_) => {
                word(&mut self.out, b"dropped")?;
                self.contents()
            }
            _ => Ok(()),
        }
    }

    fn cut_line(&mut self, k: usize, taken: usize, answer: Answer) -> io::Result<()> {
        if answer == Answer::Quiet {
            return Ok(());
        }
        write!(self.out, "cut {k}")?;
        self.after(taken, answer)
    }

    // At places 8 to 25 of a start text, the header's minute and the digits of the time that wait in
    // the state (Request 111)
    fn waiting_line(&mut self, taken: usize) -> io::Result<()> {
        let s = self.state;
        let place = s.frame.place;
        if !is_start_kind(s.frame.kind) || !matches!(place, 8..=25) {
            return Ok(());
        }
        write!(self.out, "waiting {taken} {place}")?;
        spaced(&mut self.out, s.header.minute)?;
        list(&mut self.out, &s.digits)?;
        end_line(&mut self.out)
    }

    fn byte_line(&mut self, taken: usize, answer: Answer) -> io::Result<()> {
        if answer == Answer::Quiet {
            return self.waiting_line(taken);
        }
        word(&mut self.out, b"byte")?;
        self.after(taken, answer)
    }

    // Gives bytes of a record, behind `before` others, by as many calls as that takes
    fn give(&mut self, k: usize, before: usize, bytes: &[u8]) -> io::Result<()> {
        let mut taken = before;
        let mut rest = bytes;
        // Stays a while: how many bytes are taken at a time is the call's to say
        while !rest.is_empty() {
            let result = slice_call(self.state, &mut self.grid, rest);
            if result.count == 0 {
                break;
            }
            self.state = result.state;
            taken = taken.saturating_add(result.count);
            let (_, behind) = rest.split_at(result.count);
            rest = behind;
            self.cut_line(k, taken, result.answer)?;
        }
        Ok(())
    }

    // Two slices. The second text begins after the start text, which has 40 bytes; a record with no
    // such place is not cut
    fn cut_at(&mut self, k: usize, bytes: &[u8]) -> io::Result<()>
        requires { k ≤ 6 }
    {
        let (front, back) = bytes.split_at_checked(40 + k).unwrap_or((&[], bytes));
        self.give(k, 0, front)?;
        self.give(k, front.len(), back)
    }

    // Cuts from before the opening's first byte to after its last
    pub fn by_slices(&mut self, bytes: &[u8]) -> io::Result<()> {
        for k in 0..=6 {
            self.cut_at(k, bytes)?;
        }
        Ok(())
    }

    pub fn by_bytes(&mut self, bytes: &[u8]) -> io::Result<()> {
        for (i, b) in bytes.iter().enumerate() {
            let result = byte_call(self.state, &mut self.grid, *b);
            self.state = result.state;
            self.byte_line(i + 1, result.answer)?;
        }
        Ok(())
    }
}
