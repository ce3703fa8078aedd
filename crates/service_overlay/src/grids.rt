// Two grids laid over each other.
ghost use Rattle.std.specs.Prelude.{◌≡◌, length};
ghost use Rattle.service_overlay_spec.specs.Overlay.{higher_byte, higher, overlaid};
ghost use Rattle.service_overlay.specs.Returned.{outcome_of};

use refusals::refusal::Refusal;
use text::payload::are_payload_bytes;

// Of two meshes the higher level, in both halves of a byte. Notice 49, 4(1)(1-1)(d)(ウ)
fn higher_byte(a: u8, b: u8) -> u8
    ensures { result ≡ higher_byte a b }
{
    let odd = (a / 16).max(b / 16);
    let even = (a % 16).max(b % 16);
    odd * 16 + even
}

// Lays two grids over each other into a third of the same length. The loop has no way out, so that the
// compiler can take many bytes at a time
fn overlay_bytes(first: &[u8], second: &[u8], third: &mut [u8])
    requires first_len { length first.now ≡ length third.old }
    requires second_len { length second.now ≡ length third.old }
    ensures { third.new ≡ higher first.now second.now }
{
    for (i, laid) in third.iter_mut().enumerate() {
        *laid = higher_byte(first[i], second[i]);
    }
}

// Overlay of two intensity grids into a third, mesh by mesh the higher level. Refusals: 42 for the
// length of any of the three, 43 for a level 15 in one that is read. Notice 49, 4(1)(1-1)(d)(ウ)
pub fn overlay(first: &[u8], second: &[u8], third: &mut [u8]) -> Result<(), Refusal>
    ensures { outcome_of result third.new ≡ overlaid first.now second.now third.old }
{
    if (first.len() != 20000) | (second.len() != 20000) | (third.len() != 20000) {
        return Err(Refusal::GridLength);
    }
    if !(are_payload_bytes(1, first) & are_payload_bytes(1, second)) {
        return Err(Refusal::Level15);
    }
    overlay_bytes(first, second, third);
    Ok(())
}
