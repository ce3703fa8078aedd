// A stretch of the stream through the slice call, and through the byte call with a state and a grid
// of its own.
ghost use Rattle.std.specs.Prelude.{◌≤◌, length, IfOk};

use program_parts::lines::call_lines;
use program_streams::reading::Listener;
use receiver_byte_call::calls::byte_call;
use receiver_marks::marks::all_marks;
use receiver_slice_call::calls::slice_call;
use receiver_state::state::{State, fresh};
use std::io;
use std::io::Write;

// What one kind of call returned and left
#[derive(Drop)]
struct Held {
    state: State,
    grid: [u8; 20000],
}

// Fresh, with all twenty marks
fn at_start() -> Held {
    Held {
        state: fresh(all_marks()),
        grid: [0; 20000],
    }
}

// What each kind of call holds, how many bytes the byte call has taken, and where the lines go
#[derive(Drop)]
pub struct Both<W> {
    out: W,
    sliced: Held,
    single: Held,
    total: u64,
}

impl<W: Write> Both<W> {
    pub fn new(out: W) -> Both<W> {
        Both {
            out,
            sliced: at_start(),
            single: at_start(),
            total: 0,
        }
    }

    // The bytes one by one. A count of 64 bits stays at its end, which no input reaches
    fn by_bytes(&mut self, bytes: &[u8]) -> io::Result<()> {
        for b in bytes {
            let result = byte_call(self.single.state, &mut self.single.grid, *b);
            self.single.state = result.state;
            self.total = self.total.saturating_add(1);
            call_lines(
                &mut self.out,
                b"byte",
                self.total,
                result,
                &self.single.grid,
            )?;
        }
        Ok(())
    }

    // One slice call, after the byte call has had the bytes that it takes; how many these are
    fn by_slice(&mut self, bytes: &[u8]) -> io::Result<usize>
        ensures { IfOk result (λ n. n ≤ length bytes.now) }
    {
        let result = slice_call(self.sliced.state, &mut self.sliced.grid, bytes);
        self.sliced.state = result.state;
        let (taken, _) = bytes.split_at(result.count);
        self.by_bytes(taken)?;
        call_lines(
            &mut self.out,
            b"slice",
            self.total,
            result,
            &self.sliced.grid,
        )?;
        Ok(result.count)
    }
}

impl<W: Write> Listener for Both<W> {
    // All bytes, by as many calls as that takes; no further where a call takes none
    fn take(&mut self, bytes: &[u8]) -> io::Result<bool> {
        let mut rest = bytes;
        // Stays a while: how many bytes are taken at a time is the call's to say
        while !rest.is_empty() {
            let count = self.by_slice(rest)?;
            rest = &rest[count..];
            if count == 0 {
                break;
            }
        }
        self.out.flush()?;
        Ok(rest.is_empty())
    }
}
