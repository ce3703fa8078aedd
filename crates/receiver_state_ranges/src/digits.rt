// The digits of the time that wait in a state (Request 111).
ghost use Rattle.std.specs.Prelude.{◌≡◌, eqb};
ghost use Rattle.general_laws.specs.Bytes.{every};
ghost use Rattle.receiver_state_ranges.specs.DigitsFit.{digits_fit};

use receiver_state::state::Frame;
use text_calendar::time::are_digits;
use text_kinds::table::is_start_kind;

// Whether no digit waits: all are 0. Request 111
pub fn none_waits(digits: [u8; 12]) -> bool
    ensures { result ≡ every (λ d. eqb d 0) digits }
{
    digits == [0; 12]
}

// Whether the digits may wait here: each is 9 at most at places 9 to 23 of a start text, and 0
// elsewhere. Request 111
#[tactic(auto, unfolding(crate::specs::DigitsFit::digits_fit))]
pub(crate) fn digits_fit(f: Frame, digits: [u8; 12]) -> bool
    ensures { result ≡ digits_fit f digits }
{
    if is_start_kind(f.kind) & (9 <= f.place) & (f.place <= 23) {
        return are_digits(digits);
    }
    none_waits(digits)
}
