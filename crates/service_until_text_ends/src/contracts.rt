// The contract that specs/CodeLeft speaks of is that of bytes_left: it is called once, and what its contract
// ensures is what the claim asks.
ghost use Rattle.service_until_text_ends.specs.CodeLeft.{EnsuredLeft};

use receiver_state::state::State;
use refusals::refusal::Refusal;
use service_bytes_left::left::bytes_left;

// The contract of bytes_left. Request 106
fn left_ensured(state: State) -> Result<u16, Refusal>
    ensures { EnsuredLeft state result }
{
    bytes_left(state)
}
