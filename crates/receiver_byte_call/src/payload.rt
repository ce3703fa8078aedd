// A byte inside a payload.
ghost use Rattle.std.specs.Prelude.{◌≡◌};
ghost use Rattle.receiver_byte_call.specs.InPayload.{advanced_state, is_payload_here};

use receiver_marks::marks::are_marks;
use receiver_state::state::{Frame, State};
use receiver_state_ranges::digits::none_waits;
use text::payload::is_payload_byte;
use text_codes::table::is_picture_code;
use text_kinds::table::{is_kind, kind_of};
use text_lengths::block::data_block_length;

// Whether a byte is payload of the data text that is under way and due. Where it is, the state is
// possible (01, row 2, and Requests 101 and 111); the first tests suffice for a byte outside a payload.
// Notice 49, 4(1)(1-1)(c)(エ) and (d)(ウ), 4(1)(1-2)(c)(エ) and (d)(ウ), 4(2)(c)(エ) and (d)(ウ)
#[tactic(auto, unfolding(crate::specs::InPayload::is_payload_here))]
pub(crate) fn is_payload_here(s: State, b: u8) -> bool
    ensures { result ≡ is_payload_here s.frame s.marks s.digits b }
{
    let f = s.frame;
    (3 <= f.place)
        && (f.due != 0)
        && (f.due <= 10)
        && (f.count == 5)
        && (f.place < data_block_length(f.part))
        && (f.kind == kind_of(f.part, f.due))
        && is_kind(f.kind)
        && is_picture_code(f.picture)
        && are_marks(s.marks)
        && none_waits(s.digits)
        && is_payload_byte(f.part, b)
}

// The state further on: place, check byte and the bytes seen have moved
#[tactic(auto, unfolding(crate::specs::InPayload::advanced_state))]
pub fn advanced_state(s: State, place: u16, check: u8, seen: u64, count: u8) -> State
    ensures { result ≡ advanced_state s place check seen count }
{
    State {
        seen,
        frame: Frame {
            place,
            check,
            count,
            ..s.frame
        },
        ..s
    }
}
