// The ranges that refusal 2 names.
ghost use Rattle.std.specs.Prelude.{◌≡◌};
ghost use Rattle.receiver_spec.specs.State.{is_due, is_possible};
ghost use Rattle.receiver_state.specs.Meaning.{state_of};
ghost use Rattle.receiver_state_ranges.specs.FrameFits.{frame_fits};

use crate::digits::digits_fit;
use receiver_marks::marks::are_marks;
use receiver_state::state::{Frame, State};
use text_codes::table::is_picture_code;
use text_kinds::table::{is_kind, kind_of, text_of_kind};
use text_lengths::block::block_length;

// No part open and due text 0, or a part and one of its texts, the start aside.
// Notice 49, 4(1)(1-1)(a), 4(1)(1-2)(a), 4(2)(a)
#[tactic(auto, unfolding(receiver_spec::specs::State::is_due))]
fn is_due(part: u8, due: u8) -> bool
    ensures { result ≡ is_due part due }
{
    if part == 0 {
        return due == 0;
    }
    is_kind(kind_of(part, due)) & (due != 0)
}

// Whether place, kind and picture code fit each other and the part open.
// Notice 49, 4(1)(1-1)(b), (d)(イ) and (ウ), 4(1)(1-2)(b), (d)(イ) and (ウ),
// 4(2)(b), (d)(イ) and (ウ), 5(1)
#[tactic(auto, using(text_laws::proofs::KindTable::block_most), unfolding(crate::specs::FrameFits::frame_fits, general_laws::specs::Bytes::all_of, text::specs::Kinds::is_start_kind))]
fn frame_fits(f: Frame) -> bool
    ensures { result ≡ frame_fits f }
{
    if f.kind == 0 {
        if f.place == 0 {
            return (f.picture == 0) & (f.check == 0);
        }
        if f.place == 1 {
            return f.picture == 0;
        }
        return (f.place == 2) & is_picture_code(f.picture);
    }
    if !is_kind(f.kind) {
        return false;
    }
    let placed = (3 <= f.place) & (f.place <= block_length(f.kind) + 2);
    let coded = is_picture_code(f.picture);
    if f.part == 0 {
        return placed & coded & (text_of_kind(f.kind) == 0);
    }
    placed & coded & (f.kind == kind_of(f.part, f.due))
}

// Whether a state is possible (01, row 2, and Requests 101 and 111: no marks beyond the twentieth; the
// digits that wait).
// Notice 49, 4(1)(1-1)(a), (b), (d)(イ) and (ウ), 4(1)(1-2)(a), (b), (d)(イ) and (ウ),
// 4(2)(a), (b), (d)(イ) and (ウ), 5(1)
pub fn is_possible(s: State) -> bool
    ensures { result ≡ is_possible (state_of s) }
{
    let f = s.frame;
    let framed = (f.count <= 5) & is_due(f.part, f.due) & frame_fits(f);
    framed & are_marks(s.marks) & digits_fit(f, s.digits)
}
