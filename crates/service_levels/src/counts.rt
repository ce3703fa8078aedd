// Whether a grid has a mesh at level 15, and how many meshes are at or above a level. Most bytes of a
// grid are dry, `00`: each byte is tested for that first, and only the others are split in two
// (Request 102).
ghost use Rattle.std.specs.Prelude.{◌≡◌, ◌*◌, ◌≤◌, ◌<◌, length, MatchResult};
ghost use Rattle.text.specs.DataBlock.{odd_level, even_level};
ghost use Rattle.refusals.specs.declared.refusal.Refusal.TheVariants.{MeshOrLevel};
ghost use Rattle.service_levels.specs.Meshes.{count_to, has_no_level_15, meshes};

use refusals::refusal::Refusal;
use text::bytes::are_zero;

// A byte split in two. Notice 49, 4(1)(1-1)(d)(ウ)
#[derive(Clone, Copy)]
struct Halves {
    odd: u8, // the high half, left in its place: 16 times the level of the odd mesh
    even: u8, // the low half: the level of the even mesh
}

// Splits a byte in two, unless it is dry: both halves are then 0. The compiler drops the test, since
// 0 splits into 0 and 0; what saves time is to pass over whole stretches (`count_past_dry`).
// Notice 49, 4(1)(1-1)(d)(ウ); Request 102
fn split(b: u8) -> Halves
    ensures odd_value { result.odd ≡ 16 * odd_level b }
    ensures even_value { result.even ≡ even_level b }
{
    if b == 0 {
        return Halves { odd: 0, even: 0 };
    }
    Halves {
        odd: b / 16 * 16,
        even: b % 16,
    }
}

// Whether no mesh is at level 15 (01, row 43): the highest even level tells of the even meshes, and the
// highest byte of the odd ones, whose levels are the high bits. The loop keeps these two and has no way
// out, so that the compiler can take many bytes at a time. Notice 49, 5(3)(3-1); Request 102
pub(crate) fn has_no_level_15(grid: &[u8]) -> bool
    ensures { result ≡ has_no_level_15 grid.now }
{
    let mut highest: u8 = 0;
    let mut highest_even: u8 = 0;
    for b in grid {
        let halves = split(*b);
        highest_even = highest_even.max(halves.even);
        highest = highest.max(*b);
    }
    (highest <= 0xEF) & (highest_even <= 14)
}

// A grid goes in 125 stretches of so many bytes: a multiple of sixteen below 256
const STRETCH: usize = 160;

// A level that meshes are counted from, 0 to 14. Notice 49, 5(3)(3-1)
#[derive(Clone, Copy)]
pub(crate) struct Level {
    number: u8,
    ghost in_range: { number ≤ 14 },
}

// The level of a number; a number above 14 is none (01, row 41). Notice 49, 5(3)(3-1)
impl TryFrom<u8> for Level {
    type Error = Refusal;

    ghost try_from_gives = { λ number r. MatchResult r (λ level. level.number ≡ number) (λ refusal. (14 < number) × (refusal ≡ MeshOrLevel)) };

    fn try_from(number: u8) -> Result<Level, Refusal> {
        if 14 < number {
            return Err(Refusal::MeshOrLevel);
        }
        Ok(Level { number })
    }
}

impl Level {
    // How many meshes of a stretch are at or above the level, byte by byte. The loop has no way out,
    // and a byte holds each count, so that the compiler can take sixteen bytes at a time.
    // Notice 49, 5(3)(3-1); Request 102
    fn count_in_bytes(self, bytes: &[u8; STRETCH]) -> u32
        ensures { result ≡ count_to bytes.now self.number (2 * length bytes.now) }
    {
        let mut odd: u8 = 0;
        let mut even: u8 = 0;
        for b in bytes {
            let halves = split(*b);
            odd += (16 * self.number <= halves.odd) as u8;
            even += (self.number <= halves.even) as u8;
        }
        odd as u32 + even as u32
    }

    // The same, from level 1 on, where no mesh of a dry byte counts: bytes that are all dry are passed
    // over at once. Notice 49, 5(3)(3-1); Request 102
    fn count_past_dry(self, bytes: &[u8; STRETCH]) -> u32
        requires { 1 ≤ self.number }
        ensures { result ≡ count_to bytes.now self.number (2 * length bytes.now) }
    {
        if !are_zero(bytes) {
            return self.count_in_bytes(bytes);
        }
        0
    }

    // How many of a grid's 40,000 meshes are at or above the level. At level 0 every mesh counts, both
    // of a dry byte too; above it the grid goes stretch by stretch. Notice 49, 5(3)(3-1); Request 102
    pub(crate) fn count_from(self, grid: &[u8]) -> u32
        requires { length grid.now ≡ 20000 }
        ensures { result ≡ count_to grid.now self.number meshes }
    {
        if self.number == 0 {
            return 40000;
        }
        let mut count = 0;
        let (stretches, _) = grid.as_chunks::<STRETCH>();
        for stretch in stretches {
            count += self.count_past_dry(stretch);
        }
        count
    }
}
