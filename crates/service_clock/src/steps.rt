// Steps of the clock.
ghost use Rattle.std.specs.Prelude.{◌≡◌};
ghost use Rattle.service_clock.specs.Clock.{clock_steps};

// Clock steps from one clock to another, modulo 16,384. A restart of the sender resets clocks, so
// this is no order of age. Notice 49, 4(1)(1-1)(d)(イ)
pub fn clock_steps(from: u16, to: u16) -> u16
    ensures { result ≡ clock_steps from to }
{
    to.wrapping_sub(from) % 16384
}
