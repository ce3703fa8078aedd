// The contract that specs/CodeOrder speaks of is that of overlay: it is called once, and what its contract
// ensures is what the claim asks.
ghost use Rattle.service_overlay_order.specs.CodeOrder.{EnsuredOverlay};

use refusals::refusal::Refusal;
use service_overlay::grids::overlay;

// The contract of overlay. Request 110
fn overlay_ensured(first: &[u8], second: &[u8], third: &mut [u8]) -> Result<(), Refusal>
    ensures { EnsuredOverlay first.now second.now third.old result third.new }
{
    overlay(first, second, third)
}
