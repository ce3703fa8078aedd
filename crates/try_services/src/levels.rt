// Levels of meshes, and how many meshes are at or above a level.
use crate::print::end_with;
use crate::samples::{fill_by_place, in_first};
use crate::sums::about;
use service_levels::meshes::{mesh_level, meshes_from};
use std::io;
use std::io::Write;

// The ends of the grid and its middle, and numbers that no mesh has
const MESHES: [u32; 11] = [0, 1, 2, 3, 4, 19999, 20000, 39999, 40000, 40001, 4294967295];

pub fn mesh<W: Write>(out: &mut W, grid: &[u8], n: u32) -> io::Result<()> {
    write!(out, "mesh {n}")?;
    end_with(out, b" level", mesh_level(grid, n))
}

pub fn from<W: Write>(out: &mut W, grid: &[u8], level: u8) -> io::Result<()> {
    write!(out, "from {level}")?;
    end_with(out, b" count", meshes_from(grid, level))
}

fn all_meshes<W: Write>(out: &mut W, grid: &[u8]) -> io::Result<()> {
    for n in MESHES {
        mesh(out, grid, n)?;
    }
    Ok(())
}

// Every level, and the first number that is none
fn all_levels<W: Write>(out: &mut W, grid: &[u8]) -> io::Result<()> {
    for level in 0..=15 {
        from(out, grid, level)?;
    }
    Ok(())
}

pub fn lines<W: Write>(out: &mut W) -> io::Result<()> {
    let mut grid = [0u8; 20000];
    fill_by_place(&mut grid, in_first);
    about(out, b"grid", &grid)?;
    all_meshes(out, &grid)?;
    all_levels(out, &grid)
}

// Bytes `00`, whose meshes count at level 0 alone (Request 102): a grid of nothing else, and one with
// a stretch that has every allowed byte
pub fn dry_lines<W: Write>(out: &mut W) -> io::Result<()> {
    let mut grid = [0u8; 20000];
    about(out, b"grid", &grid)?;
    all_levels(out, &grid)?;
    fill_by_place(&mut grid[5001..5340], in_first);
    about(out, b"grid", &grid)?;
    all_levels(out, &grid)
}
