// The level of a mesh, and how many meshes are at or above a level.
ghost use Rattle.std.specs.Prelude.{◌≡◌};
ghost use Rattle.service_levels.specs.Meshes.{mesh_level, meshes_from};
ghost use Rattle.service_levels.specs.Returned.{answer_of, readable};

use crate::counts::{Level, has_no_level_15};
use refusals::refusal::Refusal;

// Whether levels can be read off a grid: its length (01, row 42), then no level 15 in it (row 43).
// Notice 49, 5(3)(3-1)
fn readable(grid: &[u8]) -> Result<(), Refusal>
    ensures { result ≡ readable grid.now }
{
    if grid.len() != 20000 {
        return Err(Refusal::GridLength);
    }
    if !has_no_level_15(grid) {
        return Err(Refusal::Level15);
    }
    Ok(())
}

// The level of a mesh, 1 to 40,000: the odd number is in the high four bits.
// Notice 49, 4(1)(1-1)(d)(ウ)
pub fn mesh_level(grid: &[u8], mesh: u32) -> Result<u32, Refusal>
    ensures { answer_of result ≡ mesh_level grid.now mesh }
{
    readable(grid)?;
    if (mesh == 0) | (40000 < mesh) {
        return Err(Refusal::MeshOrLevel);
    }
    let b = grid[((mesh - 1) / 2) as usize];
    if mesh % 2 == 1 {
        return Ok((b / 16) as u32);
    }
    Ok((b % 16) as u32)
}

// How many of the 40,000 meshes are at or above a level, 0 to 14. Notice 49, 5(3)(3-1)
pub fn meshes_from(grid: &[u8], level: u8) -> Result<u32, Refusal>
    ensures { answer_of result ≡ meshes_from grid.now level }
{
    readable(grid)?;
    let level = Level::try_from(level)?;
    Ok(level.count_from(grid))
}
