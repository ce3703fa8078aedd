// Reads intensity grids of 20,000 bytes from standard input, one behind the other, to its end, and
// prints for each a line: how many of its meshes are at or above level 1, level 5 and level 10, and
// of all grids so far laid over each other, how many are at or above level 1. A grid that is refused
// has its refusal in place of each number, and is not laid over the others. Fewer bytes at the end
// are no grid.
#![tactic(auto)]

use program_streams::read_full;
use refusals::refusal::Refusal;
use service_levels::meshes::meshes_from;
use service_overlay::grids::overlay;
use std::io;
use std::io::{Read, Write};
use std::mem::swap;

// A number, or the refusal's in its place
fn number_of(found: Result<u32, Refusal>) -> u32 {
    match found {
        Ok(n) => n,
        Err(refusal) => u32::from(u8::from(refusal)),
    }
}

// One grid's line; says whether the overlay of the grid and those before it now stands in `after`
fn total<W: Write>(out: &mut W, grid: &[u8], before: &[u8], after: &mut [u8]) -> io::Result<bool> {
    let one = number_of(meshes_from(grid, 1));
    let five = number_of(meshes_from(grid, 5));
    let ten = number_of(meshes_from(grid, 10));
    let laid = overlay(grid, before, after);
    let all = match laid {
        Ok(()) => number_of(meshes_from(after, 1)),
        Err(refusal) => number_of(Err(refusal)),
    };
    writeln!(out, "{one} {five} {ten} {all}")?;
    Ok(laid.is_ok())
}

// Of two grids one holds the overlay, and the other takes the next: the two loans change places, no byte
// is copied.
// Stays a `for` with an end: a proved loop has to end, and nothing says that the input does. One that
// need not (`rt.forever()`) takes `Wait`, which no function here does; this one has more turns than any
// run uses up
fn grids<R: Read, W: Write>(input: &mut R, out: &mut W) -> io::Result<()> {
    let mut grid = [0u8; 20000];
    let mut one = [0u8; 20000];
    let mut two = [0u8; 20000];
    let mut laid = &mut one;
    let mut next = &mut two;
    for _ in 0..u64::MAX {
        if read_full(input, &mut grid)? != 20000 {
            break;
        }
        if total(out, &grid, laid, next)? {
            swap(&mut laid, &mut next);
        }
    }
    Ok(())
}

fn main(rt: HostRuntime) -> io::Result<()> {
    let mut out = rt.stdout();
    grids(&mut rt.stdin(), &mut out)?;
    out.flush()
}
