// What a byte leaves: the next state, its answer, and its effect on the grid. Every decision about a
// byte is made by one of the functions here.
ghost use Rattle.std.specs.Prelude.{◌≡◌};
ghost use Rattle.receiver_decisions.specs.Decisions.{between, goes_on, quietly, begins, drops};

use receiver_state::answer::{Answer, Row};
use receiver_state::grid::Effect;
use receiver_state::state::{Frame, State};
use text::header::Header;

// What a byte does: the next state, its answer, and its effect on the grid.
#[derive(Clone, Copy)]
pub struct Decision {
    pub next: State,
    pub answer: Answer,
    pub effect: Effect,
}

// Between texts: the part open and its due text; the bytes seen stay
pub fn between(f: Frame, part: u8, due: u8) -> Frame
    ensures { result ≡ between f part due }
{
    Frame {
        place: 0,
        kind: 0,
        picture: 0,
        part,
        due,
        check: 0,
        ..f
    }
}

// Header, modes, waiting digits and marks stay, and the receiver stands elsewhere
#[tactic(auto, unfolding(crate::specs::Decisions::goes_on))]
pub fn goes_on(s: State, frame: Frame, answer: Answer, effect: Effect) -> Decision
    ensures { result ≡ goes_on s frame answer effect }
{
    let next = State { frame, ..s };
    Decision {
        next,
        answer,
        effect,
    }
}

// The same with answer 0, and the grid as it is
pub fn quietly(s: State, frame: Frame) -> Decision
    ensures { result ≡ quietly s frame }
{
    goes_on(s, frame, Answer::Quiet, Effect::Keep)
}

// Header and modes are 0, no digit waits (Request 111), and the picture code enters; the marks stay
// (Request 101).
// Notice 49, 4(1)(1-1)(c)(イ)
#[tactic(auto, unfolding(crate::specs::Decisions::begins, receiver_spec::specs::Contents::begun_header))]
pub fn begins(s: State, frame: Frame, picture: u8, answer: Answer, effect: Effect) -> Decision
    ensures { result ≡ begins s frame picture answer effect }
{
    let header = Header {
        minute: 0,
        radars: [0; 8],
        clock: 0,
        picture,
        mode: 0,
        noecho: false,
    };
    let next = State {
        frame,
        header,
        modes: [0; 8],
        digits: [0; 12],
        ..s
    };
    Decision {
        next,
        answer,
        effect,
    }
}

// Dropped: state and grid are as fresh with the same marks, but the bytes seen are kept (01,
// "Dropped", and Request 101)
#[tactic(auto, unfolding(crate::specs::Decisions::drops))]
pub fn drops(s: State, row: Row) -> Decision
    ensures { result ≡ drops s row }
{
    let frame = between(s.frame, 0, 0);
    begins(s, frame, 0, Answer::Dropped(row), Effect::Clear)
}
