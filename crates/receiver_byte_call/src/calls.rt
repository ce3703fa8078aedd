// The byte call (01, "The receiver"), and what calls return.
//
// From a contract to demand 3: `returned` reads a call's result and grid as `receiver_spec` does, and each
// contract says that they are `byte_call` or `slice_call` of the state and grid lent. Those two are
// what `receiver_spec`'s lists of calls are made of; `receiver_demand_3` proves that every list of these
// calls from `fresh` is one of them, so demand 3 holds of it. The second line of a contract gives the one number that
// `receiver_spec`'s state does not have: how the code holds the bytes seen.
ghost use Rattle.std.specs.Prelude.{◌≡◌, ◌∷◌, [], take};
ghost use Rattle.receiver_spec.specs.Calls.{byte_call};
ghost use Rattle.receiver_state.specs.Meaning.{state_of};
ghost use Rattle.receiver_bytes_seen.specs.Behind.{seen_after};
ghost use Rattle.receiver_byte_call.specs.Returned.{returned, refusal};

use crate::payload::{advanced_state, is_payload_here};
use receiver_bytes_seen::seen::pushed;
use receiver_state::answer::Answer;
use receiver_state::grid::apply;
use receiver_state::state::State;
use receiver_state_ranges::ranges::is_possible;
use receiver_step::decide::decide;
use refusals::refusal::Refusal;

// What a call returns: the state, the answer and how many bytes it took
#[derive(Clone, Copy)]
pub struct CallResult {
    pub state: State,
    pub answer: Answer,
    pub count: usize,
}

// A refusal: the state as it was, and nothing taken
pub fn refused(state: State, why: Refusal) -> CallResult
    ensures { result ≡ refusal state why }
{
    CallResult {
        state,
        answer: Answer::Refused(why),
        count: 0,
    }
}

// The byte call. Inside a payload, where most bytes are, it goes by fewer tests, and enters the
// byte where (c)(エ) has it. Notice 49, 4(1)(1-1), 4(1)(1-2), 4(2)
#[tactic(auto, unfolding(crate::specs::Returned::returned, crate::specs::Returned::reply_of, receiver_spec::specs::Calls::byte_call, receiver_bytes_seen::specs::Behind::seen_after))]
pub fn byte_call(state: State, grid: &mut [u8], b: u8) -> CallResult
    ensures grid_after { returned result grid.new ≡ byte_call (state_of state) grid.old b }
    ensures seen_value { result.state.seen ≡ seen_after state.seen (take result.count (b ∷ [])) }
{
    if grid.len() != 20000 {
        return refused(state, Refusal::ReceiverGridLength);
    }
    let f = state.frame;
    if is_payload_here(state, b) {
        grid[2000 * ((f.due - 1) as usize) + ((f.place - 3) as usize)] = b;
        return CallResult {
            state: advanced_state(state, f.place + 1, f.check ^ b, pushed(state.seen, b), 5),
            answer: Answer::Quiet,
            count: 1,
        };
    }
    if !is_possible(state) {
        return refused(state, Refusal::ImpossibleState);
    }
    let d = decide(state, b);
    apply(grid, d.effect, b);
    CallResult {
        state: d.next,
        answer: d.answer,
        count: 1,
    }
}
