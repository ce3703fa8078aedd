// A text's picture code and kind (01, rows 13 to 17; Request 101, row 51).
ghost use Rattle.std.specs.Prelude.{◌≡◌};
ghost use Rattle.receiver_step.specs.Decide.{onward, picture_decided, start_decided, kind_row, kind_decided};

use receiver_decisions::decision::{Decision, begins, drops, quietly};
use receiver_marks::marks::is_marked;
use receiver_state::answer::{Answer, Row};
use receiver_state::grid::Effect;
use receiver_state::state::{Frame, State};
use text_codes::table::is_picture_code;
use text_kinds::table::{is_kind, is_start_kind, kind_of};

// At a later place of the text under way, with this kind and picture code, and the byte in the
// running check byte. Notice 49, 4(1)(1-1)(c)(ア)
fn onward(f: Frame, place: u16, kind: u8, picture: u8, b: u8) -> Frame
    ensures { result ≡ onward f place kind picture b }
{
    Frame {
        place,
        kind,
        picture,
        check: f.check ^ b,
        ..f
    }
}

// Block byte 1. Row 13: no picture code. Row 51: a listed code that is unmarked (Request 101). A
// marked code is listed, so what is to go on is asked once. Notice 49, 5(1)
#[tactic(auto, unfolding(crate::specs::Decide::picture_decided))]
pub(crate) fn picture_decided(s: State, b: u8) -> Decision
    ensures { result ≡ picture_decided s b }
{
    if is_marked(s.marks, b) {
        return quietly(s, onward(s.frame, 2, 0, b, b));
    }
    if is_picture_code(b) {
        return drops(s, Row::UnmarkedPicture);
    }
    drops(s, Row::NoPictureCode)
}

// A start kind is taken: no part is open, header and modes are 0, and the picture code enters.
// Row 15: while a part is open. Notice 49, 4(1)(1-1)(c)(イ)
#[tactic(auto, unfolding(crate::specs::Decide::start_decided, crate::specs::Decide::onward))]
fn start_decided(s: State, b: u8) -> Decision
    ensures { result ≡ start_decided s b }
{
    let f = s.frame;
    let frame = Frame {
        part: 0,
        due: 0,
        ..onward(f, 3, b, f.picture, b)
    };
    if f.part == 0 {
        return begins(s, frame, f.picture, Answer::Quiet, Effect::Keep);
    }
    begins(
        s,
        frame,
        f.picture,
        Answer::Dropped(Row::StartInPart),
        Effect::Clear,
    )
}

// The row that a byte meets as a data or end kind, if it meets one. Row 14: no kind. Row 16: no
// part open, or not the due kind. Row 17: another picture code than the start's.
// Notice 49, 4(1)(1-1)(d)(イ) and (ウ), 4(1)(1-2)(d)(イ) and (ウ), 4(2)(d)(イ) and (ウ)
#[tactic(auto, unfolding(crate::specs::Decide::kind_row))]
fn kind_row(f: Frame, picture: u8, b: u8) -> Option<Row>
    ensures { result ≡ kind_row f picture b }
{
    if !is_kind(b) {
        return Some(Row::NoKind);
    }
    if (f.part == 0) | (b != kind_of(f.part, f.due)) {
        return Some(Row::NotDueKind);
    }
    if f.picture != picture {
        return Some(Row::OtherPicture);
    }
    None
}

// Block byte 2. Rows 14 to 17.
// Notice 49, 4(1)(1-1)(d)(イ) and (ウ), 4(1)(1-2)(d)(イ) and (ウ), 4(2)(d)(イ) and (ウ)
#[tactic(auto, unfolding(crate::specs::Decide::kind_decided))]
pub(crate) fn kind_decided(s: State, b: u8) -> Decision
    ensures { result ≡ kind_decided s b }
{
    if is_start_kind(b) {
        return start_decided(s, b);
    }
    match kind_row(s.frame, s.header.picture, b) {
        Some(row) => drops(s, row),
        None => quietly(s, onward(s.frame, 3, b, s.frame.picture, b)),
    }
}
