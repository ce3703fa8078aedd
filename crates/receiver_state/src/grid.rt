// What a byte does to the grid.
ghost use Rattle.std.specs.Prelude.{◌≡◌, length};
ghost use Rattle.text.specs.Part.{zeros};
ghost use Rattle.receiver_state.specs.Meaning.{applied_to};

// What a byte does to the grid: nothing, clear it, or enter at a place.
#[derive(Clone, Copy, Debug, PartialEq, Eq)]
pub enum Effect {
    Keep,
    Clear,
    Enter(usize),
}

// All 0
pub fn clear(grid: &mut [u8])
    ensures { grid.new ≡ zeros (length grid.old) }
{
    grid.fill(0);
}

// Keep it, clear it, or enter the byte
pub fn apply(grid: &mut [u8], effect: Effect, b: u8)
    ensures { grid.new ≡ applied_to grid.old effect b }
{
    match effect {
        Effect::Keep => {}
        Effect::Clear => clear(grid),
        Effect::Enter(at) => {
            if at < grid.len() {
                grid[at] = b;
            }
        }
    }
}
