// A byte as a word of two hexadecimal digits, in upper or lower case (Request 101).
ghost use Rattle.std.specs.Prelude.{◌≡◌};
ghost use Rattle.text_code_words.specs.Words.{digit_of, byte_of, code_of};

// The value of a hexadecimal digit, or none
// Stays a match: the library's `to_digit` is of `char` and `u32`, so it would take a cast each way.
#[tactic(auto, unfolding(crate::specs::Words::digit_of))]
fn digit(letter: u8) -> Option<u8>
    ensures { result ≡ digit_of letter }
{
    match letter {
        b'0'..=b'9' => Some(letter - b'0'),
        b'A'..=b'F' => Some(letter - b'A' + 10),
        b'a'..=b'f' => Some(letter - b'a' + 10),
        _ => None,
    }
}

// The byte of two digits, or none where one of them is no digit
#[tactic(auto, unfolding(crate::specs::Words::digit_of))]
fn byte_of(high: u8, low: u8) -> Option<u8>
    ensures { result ≡ byte_of (digit_of high) (digit_of low) }
{
    Some(digit(high)? * 16 + digit(low)?)
}

// The byte that a word stands for; 0, which is no listed code, where it is not two digits
#[tactic(auto, unfolding(crate::specs::Words::code_of))]
pub fn code_of(word: &[u8]) -> u8
    ensures { result ≡ code_of word.now }
{
    match word {
        [high, low] => byte_of(*high, *low).unwrap_or(0),
        _ => 0,
    }
}
