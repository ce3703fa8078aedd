// The receiver's state, the fresh one, and how many pictures a state has marked.
ghost use Rattle.std.specs.Prelude.{◌≡◌};
ghost use Rattle.receiver_spec.specs.State;
ghost use Rattle.receiver_spec.specs.Marks.{marks_set};
ghost use Rattle.receiver_state.specs.Meaning.{state_of};

use receiver_marks::marks::{marks_from, marks_set};
use text::header::Header;

// Where the receiver stands: place, kind and picture code of the text under way, the part open and
// its due text, the running check byte, and how many of the bytes seen there are.
#[derive(Clone, Copy)]
pub struct Frame {
    pub place: u16,
    pub kind: u8,
    pub picture: u8,
    pub part: u8,
    pub due: u8,
    pub check: u8,
    pub count: u8,
}

// 01's state. The last bytes seen are the low bytes of one number, the newest lowest. The digits of the
// time wait here until byte 23 of a start text (Request 111). The marks are one number too, with `C0`
// at bit 0 (Request 101).
#[derive(Clone, Copy)]
pub struct State {
    pub seen: u64,
    pub frame: Frame,
    pub header: Header,
    pub modes: [u8; 8],
    pub digits: [u8; 12],
    pub marks: u32,
}

// The fresh state with these marks: nothing seen, place 0, no part, all else 0. A number with a mark
// beyond the twentieth gives a receiver with no mark at all (Request 101)
pub fn fresh(marks: u32) -> State
    ensures result_value { state_of result ≡ Rattle.receiver_spec.specs.State.fresh marks }
    ensures seen_value { result.seen ≡ 0 }
{
    State {
        seen: 0,
        frame: Frame {
            place: 0,
            kind: 0,
            picture: 0,
            part: 0,
            due: 0,
            check: 0,
            count: 0,
        },
        header: Header {
            minute: 0,
            radars: [0; 8],
            clock: 0,
            picture: 0,
            mode: 0,
            noecho: false,
        },
        modes: [0; 8],
        digits: [0; 12],
        marks: marks_from(marks),
    }
}

// How many of the twenty marks are set, in any state: bits beyond the twentieth are not counted
// (Request 101)
pub fn count_marks(s: State) -> u32
    ensures { result ≡ marks_set (state_of s).marks }
{
    marks_set(s.marks)
}
