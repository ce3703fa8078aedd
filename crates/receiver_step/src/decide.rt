// What one byte does: the next state, the answer and the effect on the grid, by 01's table.
ghost use Rattle.std.specs.Prelude.{◌≡◌};
ghost use Rattle.receiver_step.specs.Decide.{pushed_state, decide};

use crate::head::{kind_decided, picture_decided};
use crate::opening::{gap_decided, opened_text};
use receiver_bytes_seen::seen::{counted, due_byte, ends_opening, pushed};
use receiver_decisions::decision::Decision;
use receiver_rest_of_text::by_place::text_decided;
use receiver_state::state::{Frame, State};

// The state with the byte among the bytes seen
#[tactic(auto, unfolding(crate::specs::Decide::pushed_state))]
fn pushed_state(s: State, b: u8) -> State
    ensures { result ≡ pushed_state s b }
{
    State {
        seen: pushed(s.seen, b),
        frame: Frame {
            count: counted(s.frame.count),
            ..s.frame
        },
        ..s
    }
}

// One byte: an opening is looked for before every other check. Notice 49, 4(1)(1-1)(c)(ア)
#[tactic(auto, unfolding(crate::specs::Decide::decide))]
pub fn decide(s: State, b: u8) -> Decision
    ensures { result ≡ decide s b }
{
    let f = s.frame;
    let t = pushed_state(s, b);
    if ends_opening(s.seen, f.count, b) {
        return opened_text(t);
    }
    match f.place {
        0 => gap_decided(t, due_byte(s.seen, f.count), b),
        1 => picture_decided(t, b),
        2 => kind_decided(t, b),
        _ => text_decided(t, b),
    }
}
