// Bytes left in the text under way.
ghost use Rattle.std.specs.Prelude.{◌≡◌};
ghost use Rattle.receiver_state.specs.Meaning.{state_of};
ghost use Rattle.service_bytes_left.specs.BytesLeft.{answer_of, bytes_left};

use receiver_state::state::State;
use receiver_state_ranges::ranges::is_possible;
use refusals::refusal::Refusal;
use text_lengths::block::block_length;

// Bytes left in the text under way, exactly: 0 between texts and before the kind is read, and then
// what an undamaged text still has to come, its `FF` included. Request 106;
// Notice 49, 4(1)(1-1)(b), 4(1)(1-2)(b), 4(2)(b)
pub fn bytes_left(state: State) -> Result<u16, Refusal>
    ensures { answer_of result ≡ bytes_left (state_of state) }
{
    if !is_possible(state) {
        return Err(Refusal::ImpossibleState);
    }
    let f = state.frame;
    if (f.place == 0) | (f.kind == 0) {
        return Ok(0); // between texts, or the kind is not read yet
    }
    Ok(block_length(f.kind) + 3 - f.place)
}
