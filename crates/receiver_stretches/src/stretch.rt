// How far a stretch of bytes goes, and the state behind it.
ghost use Rattle.std.specs.Prelude.{◌≡◌};
ghost use Rattle.receiver_bytes_seen.specs.Behind.{seen_after, count_after};
ghost use Rattle.receiver_byte_call.specs.InPayload.{advanced_state};

use receiver_byte_call::payload::advanced_state;
use receiver_bytes_seen::behind::seen_behind;
use receiver_state::state::State;

// How many bytes a stretch has, each answered 0, and the state behind them
#[derive(Clone, Copy)]
pub struct StretchResult {
    pub state: State,
    pub at: usize,
}

// How many bytes are seen behind these; five are kept
fn count_behind(count: u8, bytes: &[u8]) -> u8
    ensures { result ≡ count_after count bytes.now }
{
    if bytes.is_empty() {
        return count;
    }
    count.saturating_add(bytes.len().min(5) as u8).min(5)
}

// The state behind these bytes, at this place and with this check byte: they are among the bytes seen
pub fn state_behind(s: State, place: u16, check: u8, bytes: &[u8]) -> State
    ensures { result ≡ advanced_state s place check (seen_after s.seen bytes.now) (count_after s.frame.count bytes.now) }
{
    let f = s.frame;
    let seen = seen_behind(s.seen, bytes);
    advanced_state(s, place, check, seen, count_behind(f.count, bytes))
}
