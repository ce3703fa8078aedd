// Grids whose levels are not served (01, rows 42 and 43), each asked for what there is and for what
// there is not: 42 and 43 come before 41.

use crate::levels::{from, mesh};
use crate::samples::{fill_by_place, in_first};
use crate::sums::about;
use std::io;
use std::io::Write;

// The first sample grid in so many bytes, but for this byte at a place. Row 42: a byte short, a byte
// long, none. Row 43: level 15 in the high half and in the low half, at the first byte, within and at
// the last. 42 comes before 43; and what lies behind a grid is none of it.
const GRIDS: [(usize, usize, u8); 12] = [
    (19999, 0, 0),
    (20001, 0, 0),
    (0, 0, 0),
    (20000, 0, 0xF0),
    (20000, 0, 0x0F),
    (20000, 10000, 0xFE),
    (20000, 10000, 0xEF),
    (20000, 19999, 0xF0),
    (20000, 19999, 0x0F),
    (19999, 0, 0xFF),
    (20001, 20000, 0xFF),
    (20000, 20000, 0xFF),
];

fn asked<W: Write>(out: &mut W, grid: &[u8]) -> io::Result<()> {
    about(out, b"grid", grid)?;
    mesh(out, grid, 1)?;
    mesh(out, grid, 40001)?;
    from(out, grid, 1)?;
    from(out, grid, 15)
}

fn altered<W: Write>(out: &mut W, long: usize, place: usize, b: u8) -> io::Result<()> {
    let mut grid = [0u8; 20001];
    fill_by_place(&mut grid, in_first);
    if let Some(one) = grid.get_mut(place) {
        *one = b;
    }
    match grid.get(..long) {
        Some(some) => asked(out, some),
        None => Ok(()),
    }
}

pub fn lines<W: Write>(out: &mut W) -> io::Result<()> {
    for (long, place, b) in GRIDS {
        altered(out, long, place, b)?;
    }
    Ok(())
}
