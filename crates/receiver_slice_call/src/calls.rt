// The slice call (01, "The receiver"). How its contract leads to demand 3 stands in `receiver_byte_call`, beside
// the byte call.
ghost use Rattle.std.specs.Prelude.{◌≡◌, length, take};
ghost use Rattle.receiver_spec.specs.Calls.{slice_call};
ghost use Rattle.receiver_bytes_seen.specs.Behind.{seen_after};
ghost use Rattle.receiver_state.specs.Meaning.{state_of};
ghost use Rattle.receiver_byte_call.specs.Returned.{returned, is_quiet};
ghost use Rattle.receiver_stretches.specs.Run.{run, after_stretch};
ghost use Rattle.receiver_slice_call.specs.Stretch.{outcome_of, stretch};

use receiver_byte_call::calls::{CallResult, refused};
use receiver_state::answer::Answer;
use receiver_state::grid::apply;
use receiver_state::state::State;
use receiver_state_ranges::ranges::is_possible;
use receiver_step::decide::decide;
use receiver_stretch_payload::ahead::payload_ahead;
use receiver_stretch_start_end::ahead::edge_ahead;
use receiver_stretches::stretch::StretchResult;
use refusals::refusal::Refusal;

// Whether an answer is 0
fn is_quiet(a: Answer) -> bool
    ensures { result ≡ is_quiet a }
{
    matches!(a, Answer::Quiet)
}

// Past the stretch that begins here: bytes between texts and a whole start or end text, or payload
fn past_stretch(s: State, grid: &mut [u8], bytes: &[u8]) -> StretchResult
    ensures { after_stretch result grid.new ≡ run s grid.old (take (stretch s grid.old bytes.now) bytes.now) 0 }
{
    let f = s.frame;
    if f.place == 0 {
        return edge_ahead(s, bytes);
    }
    payload_ahead(s, grid, bytes)
}

// The bytes of the slice, in stretches where they begin and else one by one, up to and with the first
// that is answered other than 0
fn take_bytes(state: State, grid: &mut [u8], bytes: &[u8]) -> CallResult
    requires { length grid.old ≡ 20000 }
    ensures { outcome_of result grid.new ≡ run state grid.old bytes.now 0 }
{
    let first = past_stretch(state, grid, bytes);
    let mut s = first.state;
    let mut rest = &bytes[first.at..];
    while let Some((b, behind)) = rest.split_first() {
        let d = decide(s, *b);
        apply(grid, d.effect, *b);
        s = d.next;
        rest = behind;
        if !is_quiet(d.answer) {
            return CallResult {
                state: s,
                answer: d.answer,
                count: bytes.len() - rest.len(),
            };
        }
        let f = s.frame;
        if (f.place == 3) | (f.place == 0) {
            let on = past_stretch(s, grid, rest);
            s = on.state;
            rest = &rest[on.at..];
        }
    }
    CallResult {
        state: s,
        answer: Answer::Quiet,
        count: bytes.len(),
    }
}

// The slice call: bytes up to and with the first that is answered other than 0.
// Notice 49, 4(1)(1-1), 4(1)(1-2), 4(2)
pub fn slice_call(state: State, grid: &mut [u8], bytes: &[u8]) -> CallResult
    ensures grid_after { returned result grid.new ≡ slice_call (state_of state) grid.old bytes.now }
    ensures seen_value { result.state.seen ≡ seen_after state.seen (take result.count bytes.now) }
{
    if grid.len() != 20000 {
        return refused(state, Refusal::ReceiverGridLength);
    }
    if !is_possible(state) {
        return refused(state, Refusal::ImpossibleState);
    }
    take_bytes(state, grid, bytes)
}
