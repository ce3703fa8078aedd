// The table of kinds: block byte 2, and the part and text that it names.
// A part is 1 (intensity), 2 (echo top) or 3 (quality). A text's number within its part is 0 for
// the start text, k for data text k and 11 for the end text.
// Parts, kinds and texts stay numbers: they are bytes of the line, and the definitions of
// `text/specs/Kinds` answer for each number, 0 where there is none.
ghost use Rattle.std.specs.Prelude.{◌≡◌};
ghost use Rattle.text.specs.Kinds.{is_kind, is_start_kind, is_end_kind, part_of, text_number, kind_of};

// Whether a byte is one of the 18 kinds.
// Notice 49, 4(1)(1-1)(d)(イ) and (ウ), 4(1)(1-2)(d)(イ) and (ウ), 4(2)(d)(イ) and (ウ)
#[tactic(auto, unfolding(text::specs::Kinds::is_kind, text::specs::Kinds::part_of, text::specs::Kinds::kinds))]
pub fn is_kind(b: u8) -> bool
    ensures { result ≡ is_kind b }
{
    matches!(
        b,
        0x10..=0x1A | 0x1F | 0x20 | 0x21 | 0x2F | 0x30 | 0x31 | 0x3F
    )
}

// The part of a kind; 0 where the byte is no kind.
// Notice 49, 4(1)(1-1)(d)(イ) and (ウ), 4(1)(1-2)(d)(イ) and (ウ), 4(2)(d)(イ) and (ウ)
#[tactic(auto, unfolding(text::specs::Kinds::is_kind, text::specs::Kinds::part_of, text::specs::Kinds::kinds))]
pub fn part_of_kind(b: u8) -> u8
    ensures { result ≡ part_of b }
{
    if is_kind(b) { b / 16 } else { 0 }
}

// The text number of a kind; 0 where the byte is no kind.
// Notice 49, 4(1)(1-1)(d)(イ) and (ウ), 4(1)(1-2)(d)(イ) and (ウ), 4(2)(d)(イ) and (ウ)
#[tactic(auto, unfolding(text::specs::Kinds::is_kind, text::specs::Kinds::part_of, text::specs::Kinds::text_number, text::specs::Kinds::kinds))]
pub fn text_of_kind(b: u8) -> u8
    ensures { result ≡ text_number b }
{
    let low = b % 16;
    if is_kind(b) {
        if low == 15 { 11 } else { low }
    } else {
        0
    }
}

// Whether a byte is a start kind. Notice 49, 4(1)(1-1)(d)(イ), 4(1)(1-2)(d)(イ), 4(2)(d)(イ)
#[tactic(auto, unfolding(text::specs::Kinds::is_start_kind))]
pub fn is_start_kind(kind: u8) -> bool
    ensures { result ≡ is_start_kind kind }
{
    is_kind(kind) & (text_of_kind(kind) == 0)
}

// Whether a byte is an end kind. Notice 49, 4(1)(1-1)(d)(イ), 4(1)(1-2)(d)(イ), 4(2)(d)(イ)
#[tactic(auto, unfolding(text::specs::Kinds::is_end_kind))]
pub fn is_end_kind(kind: u8) -> bool
    ensures { result ≡ is_end_kind kind }
{
    is_kind(kind) & (text_of_kind(kind) == 11)
}

// The kind of text `text` of part `part`; 0 where there is none.
// Notice 49, 4(1)(1-1)(d)(イ) and (ウ), 4(1)(1-2)(d)(イ) and (ウ), 4(2)(d)(イ) and (ウ)
#[tactic(auto, unfolding(text::specs::Kinds::kind_of, text::specs::Kinds::kinds))]
pub fn kind_of(part: u8, text: u8) -> u8
    ensures { result ≡ kind_of part text }
{
    match (part, text) {
        (1..=3, 11) => part * 16 + 15,
        (1..=3, 0 | 1) => part * 16 + text,
        (1, 2..=10) => 16 + text,
        _ => 0,
    }
}
