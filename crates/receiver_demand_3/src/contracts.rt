// The contracts that specs/CodeCalls speaks of are those of fresh, byte_call and slice_call: each is called
// once, and what its contract ensures is what the relation asks.
ghost use Rattle.receiver_spec.specs.Calls.{byte, slice};
ghost use Rattle.receiver_demand_3.specs.CodeCalls.{EnsuredFresh, Ensured};

use receiver_byte_call::calls::{CallResult, byte_call};
use receiver_slice_call::calls::slice_call;
use receiver_state::state::{State, fresh};

fn fresh_ensured(marks: u32) -> State
    ensures { EnsuredFresh marks result }
{
    fresh(marks)
}

fn byte_ensured(state: State, grid: &mut [u8], b: u8) -> CallResult
    ensures { Ensured (byte b) state grid.old result grid.new }
{
    byte_call(state, grid, b)
}

fn slice_ensured(state: State, grid: &mut [u8], bytes: &[u8]) -> CallResult
    ensures { Ensured (slice bytes.now) state grid.old result grid.new }
{
    slice_call(state, grid, bytes)
}
