// How many meshes a complete intensity or echo top part has at each level.
use crate::counts::{bytes_at, meshes_at};
use refusals::refusal::row_of;
use std::io;
use std::io::Write;

// What each level of intensity stands for, from 0. Notice 49, 5(3)(3-1)
const RAIN: [&str; 15] = [
    "0 mm/h",
    "below 1 mm/h",
    "1 to below 2 mm/h",
    "2 to below 4 mm/h",
    "4 to below 8 mm/h",
    "8 to below 12 mm/h",
    "12 to below 16 mm/h",
    "16 to below 24 mm/h",
    "24 to below 32 mm/h",
    "32 to below 40 mm/h",
    "40 to below 48 mm/h",
    "48 to below 56 mm/h",
    "56 to below 64 mm/h",
    "64 to below 80 mm/h",
    "80 mm/h and above",
];

// What each level of echo top stands for, from 0. Notice 49, 5(3)(3-2)
const HEIGHT: [&str; 9] = [
    "no echo",
    "below 2 km",
    "2 to below 4 km",
    "4 to below 6 km",
    "6 to below 8 km",
    "8 to below 10 km",
    "10 to below 12 km",
    "12 to below 14 km",
    "14 km and above",
];

// No line for a level that does not occur. Five digits hold 40,000 meshes
fn level_line<W: Write>(out: &mut W, level: u8, meshes: usize, range: &str) -> io::Result<()> {
    if meshes == 0 {
        return Ok(());
    }
    write!(out, "\n  level {level:2}{meshes:7} meshes  {range}")
}

// The 40,000 meshes of an intensity part. A complete part's grid is not refused: it has its 20,000
// bytes and no level 15. Notice 49, 5(3)(3-1)
pub fn intensity<W: Write>(out: &mut W, grid: &[u8]) -> io::Result<()> {
    for (level, range) in (0..15).zip(RAIN) {
        match meshes_at(grid, level) {
            Ok(n) => level_line(out, level, n as usize, range)?,
            Err(refusal) => write!(out, "\n  level {level:2}  refused {}", row_of(refusal))?,
        }
    }
    Ok(())
}

// The 400 meshes of an echo top part. Notice 49, 5(3)(3-2)
pub fn tops<W: Write>(out: &mut W, payload: &[u8]) -> io::Result<()> {
    for (level, range) in (0..9).zip(HEIGHT) {
        level_line(out, level, bytes_at(payload, level), range)?;
    }
    Ok(())
}
