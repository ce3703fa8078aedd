// A text's last byte: answers 1, 2 and 3 (01, "Answers"), and rows 21 and 22.
ghost use Rattle.std.specs.Prelude.{◌≡◌};
ghost use Rattle.receiver_spec.specs.Receiver.{first_due, next_due, mode_is_highest};
ghost use Rattle.receiver_rest_of_text.specs.RestOfText.{begun_part, ended_part, taken_text, last_decided};

use receiver_decisions::decision::{Decision, between, drops, goes_on};
use receiver_state::answer::{Answer, Row};
use receiver_state::grid::Effect;
use receiver_state::state::State;
use text::header::Header;
use text_kinds::table::{is_end_kind, is_start_kind, part_of_kind, text_of_kind};
use text_lengths::part::data_texts;
use text_status::status::highest_mode;

// The due text after a start text: the end with NO ECHO, quality aside.
// Notice 49, 4(1)(1-1)(a), 4(1)(1-2)(a), 4(2)(a), 4(1)(1-1)(d)(イ)
#[tactic(auto, unfolding(receiver_spec::specs::Receiver::first_due))]
fn first_due(part: u8, h: Header) -> u8
    ensures { result ≡ first_due part h }
{
    if data_texts(part, h.noecho) == 0 {
        return 11;
    }
    1
}

// The due text after data text k. Stays beside `first_due`: each is one definition of the receiver's, and
// one function for both, of a part, NO ECHO and k, would be no plainer.
// Notice 49, 4(1)(1-1)(a), 4(1)(1-2)(a), 4(2)(a)
#[tactic(auto, unfolding(receiver_spec::specs::Receiver::next_due))]
fn next_due(part: u8, k: u8) -> u8
    ensures { result ≡ next_due part k }
{
    if k < data_texts(part, false) {
        return k + 1;
    }
    11
}

// Status 2 is the highest mode (row 22). Notice 49, 4(1)(1-1)(d)(イ)
#[tactic(auto, unfolding(receiver_spec::specs::Receiver::mode_is_highest))]
fn mode_is_highest(h: Header, modes: [u8; 8]) -> bool
    ensures { result ≡ mode_is_highest h modes }
{
    h.mode == highest_mode(modes)
}

// Answer 1, part begun: header kept, modes 0, whole grid 0.
// Notice 49, 4(1)(1-1)(a), 4(1)(1-2)(a), 4(2)(a), 4(1)(1-1)(d)(イ)
#[tactic(auto, unfolding(crate::specs::RestOfText::begun_part))]
fn begun_part(s: State) -> Decision
    ensures { result ≡ begun_part s }
{
    let part = part_of_kind(s.frame.kind);
    let frame = between(s.frame, part, first_due(part, s.header));
    let no_modes = State { modes: [0; 8], ..s };
    goes_on(no_modes, frame, Answer::Begun, Effect::Clear)
}

// Answer 3, complete, with the part's number: no part open from here; header, modes and grid kept.
// Row 22: status 2 is not the highest mode. Notice 49, 4(1)(1-1)(d)(イ)
#[tactic(auto, unfolding(crate::specs::RestOfText::ended_part))]
fn ended_part(s: State) -> Decision
    ensures { result ≡ ended_part s }
{
    let f = s.frame;
    if mode_is_highest(s.header, s.modes) {
        return goes_on(s, between(f, 0, 0), Answer::Complete(f.part), Effect::Keep);
    }
    drops(s, Row::NotHighestMode)
}

// Answer 2, data text taken. Notice 49, 4(1)(1-1)(a), 4(1)(1-2)(a), 4(2)(a)
#[tactic(auto, unfolding(crate::specs::RestOfText::taken_text))]
fn taken_text(s: State) -> Decision
    ensures { result ≡ taken_text s }
{
    let f = s.frame;
    let due = next_due(f.part, text_of_kind(f.kind));
    goes_on(s, between(f, f.part, due), Answer::Taken, Effect::Keep)
}

// The last byte, by kind. Row 21: not `FF`. Notice 49, 4(1)(1-1)(c)(ア)
#[tactic(auto, unfolding(crate::specs::RestOfText::last_decided))]
pub(crate) fn last_decided(s: State, b: u8) -> Decision
    ensures { result ≡ last_decided s b }
{
    let f = s.frame;
    if b != 0xFF {
        return drops(s, Row::NotFF);
    }
    if is_start_kind(f.kind) {
        return begun_part(s);
    }
    if is_end_kind(f.kind) {
        return ended_part(s);
    }
    taken_text(s)
}
