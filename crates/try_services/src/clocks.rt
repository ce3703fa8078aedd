// Clock steps.
use service_clock::steps::clock_steps;
use std::io;
use std::io::Write;

// Forwards, backwards and over the clock's end; and numbers of 16 bits that no clock has
const CLOCKS: [(u16, u16); 10] = [
    (0, 0),
    (0, 1),
    (1, 0),
    (16383, 0),
    (0, 16383),
    (65535, 0),
    (0, 65535),
    (16384, 0),
    (5, 65530),
    (40000, 3),
];

pub fn lines<W: Write>(out: &mut W) -> io::Result<()> {
    for (from, to) in CLOCKS {
        writeln!(out, "clock {from} {to} steps {}", clock_steps(from, to))?;
    }
    Ok(())
}
