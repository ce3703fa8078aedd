// Reading, over the readers of std.
//
//   read_full(&mut input, &mut space)?                  how many bytes came, at the front of `space`
//   feed_all(&mut input, &mut buffer, &mut listener)?   every byte to a value with `impl Listener`
ghost use Rattle.std.specs.Prelude.{◌<◌, ◌≤◌, ℕ, List, None, length, take, IfOk, OnOk};
ghost use Rattle.std.specs.Io.KnownBytes.{Appends, Consumes, IsAtEnd};
ghost use Rattle.std.specs.declared.option.Option.{Option};

use std::io;
use std::io::Read;

// Reads until `space` is full or the input ends, and gives how many bytes came, which stand at the
// front of `space`. With an error some bytes may have been read.
pub fn read_full<R: Read>(input: &mut R, space: &mut [u8]) -> io::Result<usize>
    ensures within { IfOk result (λ n. n ≤ length space.new) }
    ensures bytes { IfOk result (λ n. Consumes (R.remaining input.old) (R.remaining input.new) (take n space.new)) }
    ensures end { IfOk result (λ n. n < length space.new → IsAtEnd (R.remaining input.new)) }
{
    let mut done = 0;
    // Stays a while: how many bytes come at a time is the reader's to say
    while done < space.len() {
        let n = input.read(&mut space[done..])?;
        if n == 0 {
            break;
        }
        done += n;
    }
    Ok(done)
}

// What takes the bytes of an input, some at a time.
pub trait Listener {
    // The bytes that it has taken, where they are known.
    ghost heard: { Self → Option (List ℕ) } = { λ _. None };

    // Takes some bytes more, and says whether it goes on listening.
    fn take(&mut self, bytes: &[u8]) -> io::Result<bool>
        ensures { OnOk result (Appends (heard self.old) (heard self.new) bytes.now) };
}

// Reads once as much as there is, hands it to the listener, and so on to the input's end or until the
// listener goes on no more. What the listener took is what the input lost.
pub fn feed_all<R: Read, L: Listener>(
    input: &mut R,
    buffer: &mut [u8],
    listener: &mut L,
) -> io::Result<()>
    ensures { OnOk result ((bytes : List ℕ)
        × Consumes (R.remaining input.old) (R.remaining input.new) bytes
        × Appends (L.heard listener.old) (L.heard listener.new) bytes) }
{
    // A proved loop has to end, and nothing says that the input does: the loop has more turns than
    // any run uses up
    for _ in 0..u64::MAX {
        let count = input.read(buffer)?;
        if count == 0 {
            break;
        }
        if !listener.take(&buffer[..count])? {
            break;
        }
    }
    Ok(())
}
