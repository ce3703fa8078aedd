// The time, `YYYY.MM.DD.hh.mm`, byte by byte: its digits wait until the last of them is taken (Request
// 111).
ghost use Rattle.std.specs.Prelude.{◌≡◌, true, false, ◌-◌, ◌≤◌, ◌<◌};
ghost use Rattle.receiver_spec.specs.State.{no_digits};
ghost use Rattle.receiver_spec.specs.Contents.{time_takes, with_digit, enter_digits};
ghost use Rattle.receiver_block_bytes.specs.Time.{is_stop, digit_index};

// Whether a stop stands at this place. Notice 49, 4(1)(1-1)(c)(イ) and (d)(イ)
#[tactic(auto, unfolding(crate::specs::Time::is_stop, general_laws::specs::Bytes::is_in))]
pub(crate) fn is_stop(i: u16) -> bool
    ensures { result ≡ is_stop i }
{
    matches!(i, 4 | 7 | 10 | 13)
}

// Which of the twelve digits stands at this place; 12 at a stop, where no caller asks: an Option would
// have to be taken apart at every digit.
// Notice 49, 4(1)(1-1)(c)(イ) and (d)(イ)
fn digit_index(i: u16) -> usize
    requires { i < 16 }
    ensures { result ≡ digit_index i }
{
    let numbers = [0usize, 1, 2, 3, 12, 4, 5, 12, 6, 7, 12, 8, 9, 12, 10, 11];
    numbers[i as usize]
}

// The digits with one more, where a digit stands. Notice 49, 4(1)(1-1)(c)(イ) and (d)(イ)
pub(crate) fn with_digit(mut digits: [u8; 12], i: u16, b: u8) -> [u8; 12]
    requires i_bound { i < 16 }
    requires i_value { is_stop i ≡ false }
    requires le_b { 48 ≤ b }
    ensures { result ≡ with_digit digits i b }
{
    digits[digit_index(i)] = b - b'0';
    digits
}

// Whether a byte may stand at this place, the last one aside: digits and stops are judged at their own
// byte. Notice 49, 4(1)(1-1)(c)(イ) and (d)(イ)
#[tactic(auto, unfolding(receiver_spec::specs::Contents::time_takes, crate::specs::Time::is_stop, text::specs::StartBlock::is_digit))]
pub(crate) fn time_takes(i: u16, b: u8) -> bool
    requires { i < 15 }
    ensures { result ≡ time_takes no_digits i b }
{
    if is_stop(i) {
        return b == b'.';
    }
    b.is_ascii_digit()
}

// The digits that wait, with byte i of a start block: 0 from byte 23 on. Request 111; Notice 49,
// 4(1)(1-1)(c)(イ) and (d)(イ)
pub(crate) fn enter_digits(digits: [u8; 12], i: u16, b: u8) -> [u8; 12]
    requires { 8 ≤ i → i ≤ 22 → time_takes no_digits (i - 8) b ≡ true }
    ensures { result ≡ enter_digits digits i b }
{
    if i <= 7 {
        return digits;
    }
    if 22 < i {
        return [0; 12];
    }
    if is_stop(i - 8) {
        return digits;
    }
    with_digit(digits, i - 8, b)
}
