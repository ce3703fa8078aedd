// Shows each service on sample grids and parts. There is no input. What must be printed, the file
// stdout, is made by tests/try_services.py from the model of 01.
//
// Lines are words and decimal numbers. A sum is Adler-32, begun at 0.
//   grid LENGTH SUM                     a grid, which the lines below it are about
//   mesh NUMBER level LEVEL             the level of a mesh
//   from LEVEL count COUNT              how many meshes are at or above a level
//   overlay FIRST SECOND THIRD laid SUM
//                                       lengths of the three grids, and the third's sum after the
//                                       call; before it the third is all `FF`
//   clock FROM TO steps STEPS           clock steps
//   part PART LENGTH SUM                a part that the writer made
//   altered, preceded, followed, cut, nothing LENGTH SUM
//                                       that part with one byte altered, with a byte before it, with
//                                       a byte behind it, without its last byte, and no byte of it
//   text K LENGTH SUM                   the payload of data text K of the bytes in the line above
//   taken TAKEN PLACE left BYTES        bytes left after so many bytes of the part named above, where
//                                       the state has this place; TAKEN 0 is a fresh state
//   state PLACE KIND PICTURE PART DUE CHECK SEEN-COUNT MARKS DIGITS set COUNT left BYTES
//                                       how many marks are set, and bytes left, in a state of these
//                                       numbers; DIGITS is the twelve digits of the time, each as
//                                       two hexadecimal digits (Request 111)
// Where a service refuses, `refused` and the row of 01 stand in place of the last word and its
// number. In an overlay's line they stand in place of `laid`, and the sum is that of the third grid
// as it was.
#![tactic(auto)]

mod clocks;
mod left;
mod levels;
mod made_up;
mod overlays;
mod parts;
mod payloads;
mod print;
mod refused_grids;
mod samples;
mod sums;

use std::io;
use std::io::Write;

fn main(rt: HostRuntime) -> io::Result<()> {
    let mut out = rt.stdout();
    levels::lines(&mut out)?;
    levels::dry_lines(&mut out)?;
    refused_grids::lines(&mut out)?;
    overlays::lines(&mut out)?;
    clocks::lines(&mut out)?;
    payloads::lines(&mut out)?;
    left::lines(&mut out)?;
    made_up::lines(&mut out)?;
    out.flush()
}
