// Counts of meshes: those at one level, or of one value.
ghost use Rattle.std.specs.Prelude.{◌≡◌};
ghost use Rattle.service_levels.specs.Returned.{answer_of};
ghost use Rattle.decode.specs.Count.{count_of, meshes_at};

use refusals::refusal::Refusal;
use service_levels::meshes::meshes_from;

// How many bytes equal `value`, where each byte is a mesh. A quality part asks this of 129 values: the
// loop adds what each test says and has no other way, so that the compiler can take many bytes at a
// time; over a `filter` and `count` it goes byte by byte.
// Notice 49, 4(1)(1-2)(d)(ウ), 4(2)(d)(ウ)
pub fn bytes_at(bytes: &[u8], value: u8) -> usize
    ensures { result ≡ count_of bytes.now value }
{
    let mut count = 0;
    for b in bytes {
        count += (*b == value) as usize;
    }
    count
}

// How many of the 40,000 meshes are at a level, 0 to 14: those at or above it, less those at or above
// the next. Refusals are those of the service. Notice 49, 5(3)(3-1)
pub fn meshes_at(grid: &[u8], level: u8) -> Result<u32, Refusal>
    ensures { answer_of result ≡ meshes_at grid.now level }
{
    let from = meshes_from(grid, level)?;
    if level >= 14 {
        return Ok(from);
    }
    let above = meshes_from(grid, level + 1)?;
    Ok(from.saturating_sub(above))
}
