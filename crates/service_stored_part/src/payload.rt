// The payload of a data text of a stored part.
ghost use Rattle.std.specs.Prelude.{◌≡◌, [], MatchOption};
ghost use Rattle.service_stored_part.specs.Stored.{text_payload, PayloadPlace};

use crate::whole::is_undamaged_part;
use text_kinds::table::part_of_kind;
use text_lengths::block::data_block_length;
use text_lengths::part::data_texts;
use text_status::status::no_echo_of;

// Where the payload of data text k stands in a part whose data blocks have this length.
// Notice 49, 4(1)(1-1)(c)(エ), 4(1)(1-2)(c)(エ), 4(2)(c)(エ)
fn payload_at(part: &[u8], block: u16, k: u8) -> &[u8]
    requires { PayloadPlace part.now block k }
    ensures { result.now ≡ text_payload part.now k }
{
    let size = (block - 3) as usize;
    let from = 48 + ((k - 1) as usize) * (size + 11);
    &part[from..from + size]
}

// The payload of data text k, if these bytes are exactly one undamaged part that has text k.
// Notice 49, 4(1)(1-1)(c)(エ), 4(1)(1-2)(c)(エ), 4(2)(c)(エ)
fn payload_in(part: &[u8], k: u8) -> Option<&[u8]>
    ensures { MatchOption result ([] ≡ text_payload part.now k) (λ payload. payload.now ≡ text_payload part.now k) }
{
    if !is_undamaged_part(part) {
        return None;
    }
    let number = part_of_kind(part[7]);
    let last = data_texts(number, no_echo_of(part[9]));
    if (k == 0) | (last < k) {
        return None;
    }
    Some(payload_at(part, data_block_length(number), k))
}

// The payload of data text k, as a stretch of the caller's own bytes; empty unless these are exactly
// one undamaged part that has text k. Notice 49, 4(1)(1-1)(c)(エ), 4(1)(1-2)(c)(エ), 4(2)(c)(エ)
pub fn text_payload(part: &[u8], k: u8) -> &[u8]
    ensures { result.now ≡ text_payload part.now k }
{
    match payload_in(part, k) {
        Some(payload) => payload,
        None => &part[..0],
    }
}
