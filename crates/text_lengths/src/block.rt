// The lengths of blocks.
// Parts and kinds stay numbers: they are bytes of the line, and the definitions of `text/specs/Kinds`
// answer for each number, 0 where there is none.
ghost use Rattle.std.specs.Prelude.{◌≡◌};
ghost use Rattle.text.specs.Kinds.{block_length, data_block_length};

use text_kinds::table::part_of_kind;

// The length of a data block; 0 where there is no such part.
// Notice 49, 4(1)(1-1)(b)(イ), 4(1)(1-2)(b)(イ), 4(2)(b)(イ)
#[tactic(auto, unfolding(text::specs::Kinds::data_block_length))]
pub fn data_block_length(part: u8) -> u16
    ensures { result ≡ data_block_length part }
{
    match part {
        1 => 2003,
        2 => 403,
        3 => 103,
        _ => 0,
    }
}

// The length of a kind's block; 0 where the byte is no kind.
// Notice 49, 4(1)(1-1)(b)(ア) to (ウ), 4(1)(1-2)(b)(イ), 4(2)(b)(イ)
#[tactic(auto, unfolding(text::specs::Kinds::block_length, text::specs::Kinds::is_kind, text::specs::Kinds::is_data_kind, text::specs::Kinds::part_of, text::specs::Kinds::text_number, text::specs::Kinds::kinds, text::specs::Kinds::data_block_length))]
pub fn block_length(b: u8) -> u16
    ensures { result ≡ block_length b }
{
    match (part_of_kind(b), b % 16) {
        (0, _) => 0,
        (_, 0 | 15) => 32,
        (part, _) => data_block_length(part),
    }
}
