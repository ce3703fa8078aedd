// Status bytes, mode bytes and the clock.
ghost use Rattle.std.specs.Prelude.{◌≡◌};
ghost use Rattle.text.specs.StartBlock.{no_echo_of, mode_of, mode_byte, clock_of};
ghost use Rattle.text.specs.EndBlock.{highest};

// NO ECHO, bit 3 of status 1; the other bits have no meaning. Notice 49, 4(1)(1-1)(d)(イ)
#[tactic(auto, unfolding(text::specs::StartBlock::no_echo_of, general_laws::specs::Bytes::bit))]
pub fn no_echo_of(status1: u8) -> bool
    ensures { result ≡ no_echo_of status1 }
{
    status1 / 8 % 2 == 1
}

// The mode of a byte with mode bits; 0 unless exactly one of the three is set. Notice 49, 4(1)(1-1)(d)(イ)
pub fn mode_of(b: u8) -> u8
    ensures { result ≡ mode_of b }
{
    match b & 0x54 {
        0x04 => 1,
        0x10 => 2,
        0x40 => 3,
        _ => 0,
    }
}

// The byte that says a mode; 0 for a number that is no mode. Notice 49, 4(1)(1-1)(d)(イ)
#[tactic(auto, unfolding(text::specs::StartBlock::mode_byte))]
pub fn mode_byte(m: u8) -> u8
    ensures { result ≡ mode_byte m }
{
    match m {
        1 => 0x04,
        2 => 0x10,
        3 => 0x40,
        _ => 0x00,
    }
}

// The highest of the modes: what status 2 says. Notice 49, 4(1)(1-1)(d)(イ)
pub fn highest_mode(modes: [u8; 8]) -> u8
    ensures { result ≡ highest modes }
{
    let mut high = 0;
    for m in &modes {
        high = high.max(*m);
    }
    high
}

// The clock that two bytes give, high part first. Notice 49, 4(1)(1-1)(d)(イ)
#[tactic(auto, unfolding(text::specs::StartBlock::clock_of))]
pub fn clock_of(high: u8, low: u8) -> u16
    ensures { result ≡ clock_of high low }
{
    (high as u16) * 128 + (low as u16)
}
