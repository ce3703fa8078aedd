// An end block's byte: its rule, and the modes with it.
ghost use Rattle.std.specs.Prelude.{◌≡◌, ◌≤◌};
ghost use Rattle.receiver_spec.specs.Contents.{end_takes, enter_modes};

use text_radars::places::is_mode_byte;
use text_status::status::mode_of;

// The rule of byte i of an end block for these radars. Notice 49, 4(1)(1-1)(c)(ウ) and (d)(イ)
#[tactic(auto, unfolding(receiver_spec::specs::Contents::end_takes))]
pub(crate) fn end_takes(radars: [u8; 8], i: u16, b: u8) -> bool
    requires { 3 ≤ i }
    ensures { result ≡ end_takes radars i b }
{
    if i <= 10 {
        return is_mode_byte(radars[(i - 3) as usize], b);
    }
    b == 0
}

// The modes with byte i of the end block. Notice 49, 4(1)(1-1)(c)(ウ) and (d)(イ)
#[tactic(auto, unfolding(receiver_spec::specs::Contents::enter_modes))]
pub(crate) fn enter_modes(mut modes: [u8; 8], i: u16, b: u8) -> [u8; 8]
    requires { 3 ≤ i }
    ensures { result ≡ enter_modes modes i b }
{
    if i <= 10 {
        modes[(i - 3) as usize] = mode_of(b);
    }
    modes
}
