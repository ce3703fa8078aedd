// Bytes between texts.
ghost use Rattle.std.specs.Prelude.{◌≡◌, ◌==◌, position};
ghost use Rattle.receiver_stretch_start_end.specs.Ahead.{is_idle, is_gap, due_length, wait_length, Waited};

use receiver_bytes_seen::seen::{counted, due_byte, pushed};
use receiver_state::state::{Frame, State};
use receiver_stretches::stretch::{StretchResult, state_behind};

// Whether nothing is under way and no part is open
pub(crate) fn is_idle(f: Frame) -> bool
    ensures { result ≡ is_idle f }
{
    (f.place == 0)
        & (f.part == 0)
        & (f.kind == 0)
        & (f.picture == 0)
        & (f.due == 0)
        & (f.check == 0)
}

// Whether a part is open and none of its texts is under way
pub(crate) fn is_gap(f: Frame) -> bool
    ensures { result ≡ is_gap f }
{
    (f.place == 0) & (f.part != 0) & (f.kind == 0) & (f.picture == 0) & (f.check == 0)
}

// Where the next `FD` stands, without which no opening ends. Notice 49, 4(1)(1-1)(c)(ア)
fn next_fd(bytes: &[u8]) -> Option<usize>
    ensures { result ≡ position (λ b. b == 0xFD) bytes.now }
{
    bytes.iter().position(|b| *b == 0xFD)
}

// How many bytes between an open part's texts stand here, as far as each is the opening's due byte, up
// to the `FD` that ends it. Notice 49, 4(1)(1-1)(a) and (c)(ア), 4(1)(1-2)(a), 4(2)(a)
fn due_length(mut seen: u64, mut count: u8, bytes: &[u8]) -> usize
    ensures { result ≡ due_length seen count bytes.now }
{
    for (i, b) in bytes.iter().enumerate() {
        if (*b == 0xFD) | (*b != due_byte(seen, count)) {
            return i;
        }
        seen = pushed(seen, *b);
        count = counted(count);
    }
    bytes.len()
}

// How many bytes between texts stand here: between parts up to the next `FD`, in an open part as far as
// each is due; none where a text is under way.
// Notice 49, 4(1)(1-1)(a) and (c)(ア), 4(1)(1-2)(a), 4(2)(a)
fn wait_length(s: State, bytes: &[u8]) -> usize
    ensures { result ≡ wait_length s bytes.now }
{
    let f = s.frame;
    if is_idle(f) {
        return next_fd(bytes).unwrap_or(bytes.len());
    }
    if is_gap(f) {
        return due_length(s.seen, f.count, bytes);
    }
    0
}

// Past the bytes between texts that stand here.
// Notice 49, 4(1)(1-1)(a) and (c)(ア), 4(1)(1-2)(a), 4(2)(a)
pub(crate) fn wait_run(s: State, bytes: &[u8]) -> StretchResult
    ensures { Waited s (wait_length s bytes.now) bytes.now result }
{
    let f = s.frame;
    let at = wait_length(s, bytes);
    StretchResult {
        state: state_behind(s, f.place, f.check, &bytes[..at]),
        at,
    }
}
