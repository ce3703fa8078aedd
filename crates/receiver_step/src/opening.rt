// An opening, and the bytes between texts (01, rows 11 and 12).
ghost use Rattle.std.specs.Prelude.{◌≡◌};
ghost use Rattle.receiver_step.specs.Decide.{at_first, opened_text, gap_decided};

use receiver_decisions::decision::{Decision, begins, between, drops, quietly};
use receiver_state::answer::{Answer, Row};
use receiver_state::grid::Effect;
use receiver_state::state::{Frame, State};

// A text under way at place 1, with this part and due text; the bytes seen stay.
// Notice 49, 4(1)(1-1)(c)(ア)
fn at_first(f: Frame, part: u8, due: u8) -> Frame
    ensures { result ≡ at_first part due f.count }
{
    Frame {
        place: 1,
        check: 0xFD,
        ..between(f, part, due)
    }
}

// An opening has ended: a text is under way at place 1, and an open part's header stays. Row 11 where
// a text was under way already. Notice 49, 4(1)(1-1)(c)(ア)
#[tactic(auto, unfolding(crate::specs::Decide::opened_text))]
pub(crate) fn opened_text(s: State) -> Decision
    ensures { result ≡ opened_text s }
{
    let f = s.frame;
    if f.place == 0 {
        return quietly(s, at_first(f, f.part, f.due));
    }
    let frame = at_first(f, 0, 0);
    begins(
        s,
        frame,
        0,
        Answer::Dropped(Row::OpeningInText),
        Effect::Clear,
    )
}

// A byte between texts. With no part open it is free. Row 12: with a part open, the opening must
// follow byte upon byte. Notice 49, 4(1)(1-1)(a) and (c)(ア), 4(1)(1-2)(a), 4(2)(a)
#[tactic(auto, unfolding(crate::specs::Decide::gap_decided))]
pub(crate) fn gap_decided(s: State, due: u8, b: u8) -> Decision
    ensures { result ≡ gap_decided s due b }
{
    let f = s.frame;
    if f.part == 0 {
        return quietly(s, between(f, 0, 0));
    }
    if b == due {
        return quietly(s, between(f, f.part, f.due));
    }
    drops(s, Row::NotDueByte)
}
