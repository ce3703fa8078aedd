// Bytes left, and what the lines tell of them.
use program_streams::sums::with_byte;
use receiver_state::state::State;
use service_bytes_left::left::bytes_left;

// What would stand for a refusal, more than any text has. None comes: the state is fresh or one that
// the byte call returned, and these are possible. Stays a number: each line and the sum need one, so
// that with an Option or a Result each would put this in its place
const REFUSED: u16 = 65535;

// After some bytes: how many these are, bytes left in the text under way, and the sum over what was
// left after each of them
#[derive(Clone, Copy)]
pub struct Figures {
    pub total: u64,
    pub left: u16,
    pub sum: u32,
}

fn left_in(state: State) -> u16 {
    bytes_left(state).unwrap_or(REFUSED)
}

impl Figures {
    // Before the first byte: nothing read, nothing summed
    pub fn before_any(state: State) -> Figures {
        Figures {
            total: 0,
            left: left_in(state),
            sum: 0,
        }
    }

    // After one byte more, which led to this state. The figure enters the sum high byte first; a count
    // of 64 bits stays at its end, which no input reaches
    pub fn after_byte(self, state: State) -> Figures {
        let left = left_in(state);
        let [high, low] = left.to_be_bytes();
        Figures {
            total: self.total.saturating_add(1),
            left,
            sum: with_byte(with_byte(self.sum, high), low),
        }
    }
}
