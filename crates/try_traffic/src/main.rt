// Shows all that the receiver says and holds. The stream on standard input, to its end, goes through
// the slice call and through the byte call, each with a state and a grid of its own: whenever a slice
// call has taken some bytes, the byte call is given the same ones, and its lines come first.
// What must be printed, the file stdout, is made by tests/differential.py from the second
// implementation in tests/second.
//
// Lines are words and decimal numbers:
//   CALL TOTAL ANSWER      for each answer but 0; CALL is `byte` or `slice`, TOTAL the bytes read so far
//   held PART PICTURE CLOCK NOECHO MODE MINUTE RADARS MODES
//                          after answer 3: the minute, a signed count from 1 January 2000, 00:00
//                          (Request 111), 8 radars, 8 modes
//   grid RUNS              after that: all bytes of the grid, as COUNTxBYTE for each run of equal ones
#![tactic(auto)]

mod runs;

use crate::runs::Both;
use program_streams::reading::feed_all;
use std::io;

fn main(rt: HostRuntime) -> io::Result<()> {
    let mut buffer = [0u8; 65536];
    let mut both = Both::new(rt.stdout());
    feed_all(&mut rt.stdin(), &mut buffer, &mut both)
}
