// Radars and their modes, by place.
ghost use Rattle.std.specs.Prelude.{◌≡◌};
ghost use Rattle.text.specs.StartBlock.{follows, is_radar_list};
ghost use Rattle.text.specs.EndBlock.{is_mode_byte};
ghost use Rattle.text.specs.WriterInput.{is_mode_for, are_modes_for};

use text_codes::table::is_radar_code;
use text_status::status::mode_of;

// Whether a radar's byte may stand after the one before it. Notice 49, 4(1)(1-1)(d)(イ)
#[tactic(auto, unfolding(text::specs::StartBlock::follows))]
pub fn radar_follows(before: u8, radar: u8) -> bool
    ensures { result ≡ follows before radar }
{
    (radar == 0) | (is_radar_code(radar) & (before != 0) & (before < radar))
}

// Whether these are one to eight radar codes, strictly rising, then 0. Notice 49, 4(1)(1-1)(d)(イ)
pub fn is_radar_list(radars: [u8; 8]) -> bool
    ensures { result ≡ is_radar_list radars }
{
    if !is_radar_code(radars[0]) {
        return false;
    }
    for (before, radar) in radars.iter().zip(&radars[1..]) {
        if !radar_follows(*before, *radar) {
            return false;
        }
    }
    true
}

// Whether a byte of the end block is right for a radar, or for none (0). Notice 49, 4(1)(1-1)(d)(イ)
#[tactic(auto, unfolding(text::specs::EndBlock::is_mode_byte, text::specs::StartBlock::has_mode))]
pub fn is_mode_byte(radar: u8, b: u8) -> bool
    ensures { result ≡ is_mode_byte radar b }
{
    if radar == 0 { b == 0 } else { mode_of(b) != 0 }
}

// Whether a writer takes this mode for a radar, or for none (0).
// Notice 49, 4(1)(1-1)(d)(イ)
#[tactic(auto, unfolding(text::specs::WriterInput::is_mode_for))]
pub fn is_mode_for(radar: u8, mode: u8) -> bool
    ensures { result ≡ is_mode_for radar mode }
{
    if radar == 0 {
        mode == 0
    } else {
        matches!(mode, 1..=3)
    }
}

// Whether each radar has a mode, 1 to 3, and each place without a radar has none (0).
// Notice 49, 4(1)(1-1)(d)(イ)
pub fn are_modes_for(radars: [u8; 8], modes: [u8; 8]) -> bool
    ensures { result ≡ are_modes_for radars modes }
{
    for (radar, mode) in radars.iter().zip(&modes) {
        if !is_mode_for(*radar, *mode) {
            return false;
        }
    }
    true
}
