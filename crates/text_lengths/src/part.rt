// How many data texts a part has, and how long parts and payloads are.
// Parts stay numbers: they are bytes of the line, and the definitions of `text/specs/Kinds` answer for
// each number, 0 where there is no such part.
ghost use Rattle.std.specs.Prelude.{◌≡◌};
ghost use Rattle.text.specs.Kinds.{data_texts, part_length, payload_length};

// How many data texts a part has; with NO ECHO only quality has any. None where there is no such part.
// Notice 49, 4(1)(1-1)(a) and (d)(イ), 4(1)(1-2)(a), 4(2)(a)
#[tactic(auto, unfolding(text::specs::Kinds::data_texts))]
pub fn data_texts(part: u8, noecho: bool) -> u8
    ensures { result ≡ data_texts part noecho }
{
    match (part, noecho) {
        (1, false) => 10,
        (2, false) | (3, _) => 1,
        _ => 0,
    }
}

// The length of a whole part; 0 where there is no such part.
// Notice 49, 4(1)(1-1)(a), 4(1)(1-2)(a), 4(2)(a)
#[tactic(auto, unfolding(text::specs::Kinds::part_length, text::specs::Kinds::is_part_number, text::specs::Kinds::data_texts, text::specs::Kinds::data_block_length))]
pub fn part_length(part: u8, noecho: bool) -> usize
    ensures { result ≡ part_length part noecho }
{
    match (part, noecho) {
        (1, false) => 20190,
        (2, false) => 491,
        (1 | 2, true) => 80,
        (3, _) => 191,
        _ => 0,
    }
}

// How many payload bytes a part carries; 0 where there is no such part.
// Notice 49, 4(1)(1-1)(a), 4(1)(1-2)(a), 4(2)(a)
#[tactic(auto, unfolding(text::specs::Kinds::payload_length, text::specs::Kinds::data_texts, text::specs::Kinds::data_block_length))]
pub fn payload_length(part: u8) -> usize
    ensures { result ≡ payload_length part }
{
    match part {
        1 => 20000,
        2 => 400,
        3 => 100,
        _ => 0,
    }
}
