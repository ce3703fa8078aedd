// Whether bytes are exactly one undamaged part: a fresh receiver takes them and says so.
ghost use Rattle.std.specs.Prelude.{◌≡◌, ◌-◌, ◌==◌, length};
ghost use Rattle.general_laws.specs.Bytes.{◌!◌};
ghost use Rattle.text.specs.Part.{is_undamaged_part};
ghost use Rattle.receiver_spec.specs.Marks.{all_marks};
ghost use Rattle.receiver_spec.specs.State;
ghost use Rattle.receiver_spec.specs.State.{empty_grid};
ghost use Rattle.receiver_spec.specs.Calls.{answers_of, state_after};
ghost use Rattle.receiver_state.specs.Meaning.{state_of, number_of};

use receiver_marks::marks::all_marks;
use receiver_slice_call::calls::slice_call;
use receiver_state::answer::Answer;
use receiver_state::state::{State, fresh};
use text_kinds::table::part_of_kind;
use text_lengths::part::part_length;

// The state behind all bytes, and the last byte's answer
#[derive(Clone, Copy)]
struct FeedResult {
    state: State,
    answer: Answer,
}

// A fresh receiver with all twenty marks (Request 101): a stored part of any picture is looked at
fn fresh_for_all() -> State
    ensures { state_of result ≡ Rattle.receiver_spec.specs.State.fresh all_marks }
{
    fresh(all_marks())
}

// Gives all bytes to such a receiver
fn feed_all(grid: &mut [u8], bytes: &[u8]) -> FeedResult
    requires { grid.old ≡ empty_grid }
    ensures state_value { state_of result.state ≡ state_after (Rattle.receiver_spec.specs.State.fresh all_marks) empty_grid bytes.now }
    ensures answer_value { number_of result.answer ≡ answers_of (Rattle.receiver_spec.specs.State.fresh all_marks) empty_grid bytes.now ! (length bytes.now - 1) }
{
    let mut fed = FeedResult {
        state: fresh_for_all(),
        answer: Answer::Quiet,
    };
    let mut rest = bytes;
    while !rest.is_empty() {
        let call = slice_call(fed.state, grid, rest);
        rest = &rest[call.count..];
        fed = FeedResult {
            state: call.state,
            answer: call.answer,
        };
    }
    fed
}

// Whether an answer is 3
fn is_complete(a: Answer) -> bool
    ensures { result ≡ (number_of a == 3) }
{
    matches!(a, Answer::Complete(_))
}

// Whether bytes are exactly one undamaged part. The kind of a part's end text stands 33 bytes before
// its end; with it, header and length the part's first byte is settled.
// Notice 49, 4(1)(1-1)(a), 4(1)(1-2)(a), 4(2)(a)
pub fn is_undamaged_part(bytes: &[u8]) -> bool
    ensures { result ≡ is_undamaged_part bytes.now }
{
    if bytes.len() < 80 {
        return false;
    }
    let mut grid = [0u8; 20000];
    let fed = feed_all(&mut grid, bytes);
    let header = fed.state.header;
    let part = part_of_kind(bytes[bytes.len() - 33]);
    is_complete(fed.answer) & (bytes.len() == part_length(part, header.noecho))
}
