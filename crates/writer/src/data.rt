// Data texts, and the rule of a payload.
ghost use Rattle.std.specs.Prelude.{◌≡◌, true, false, ◌+◌, ◌*◌, ◌≤◌, length};
ghost use Rattle.std.proofs.lemmas.List.Edits.{sets};
ghost use Rattle.text.specs.Kinds.{is_part_number, data_block_length, data_texts, payload_length};
ghost use Rattle.text.specs.Part.{texts_of};
ghost use Rattle.writer_spec.specs.Written.{data_blocks, is_payload, writes_no_echo};

use crate::one_text::write_text;
use text::bytes::are_zero;
use text::payload::are_payload_bytes;
use text_kinds::table::kind_of;
use text_lengths::block::data_block_length;
use text_lengths::part::{data_texts, payload_length};

// Whether a part may carry this payload (01, row 33).
// Notice 49, 4(1)(1-1)(d)(ウ), 4(1)(1-2)(d)(ウ), 4(2)(d)(ウ)
pub(crate) fn is_payload(part: u8, payload: &[u8]) -> bool
    ensures { result ≡ is_payload part payload.now }
{
    let kept = are_payload_bytes(part, payload);
    (payload.len() == payload_length(part)) & kept
}

// Whether NO ECHO is set: an intensity or top payload of all zeros. Notice 49, 4(1)(1-1)(d)(イ)
pub(crate) fn writes_no_echo(part: u8, payload: &[u8]) -> bool
    ensures { result ≡ writes_no_echo part payload.now }
{
    let zero = are_zero(payload);
    (part != 3) & zero
}

// Writes all data texts of a part, each into its own stretch of the output.
// Notice 49, 4(1)(1-1)(c)(エ), 4(1)(1-2)(c)(エ), 4(2)(c)(エ)
pub(crate) fn write_datas(output: &mut [u8], part: u8, picture: u8, payload: &[u8])
    requires part_value { is_part_number part ≡ true }
    requires payload_len { length payload.now ≡ payload_length part }
    requires part_in_bounds { 40 + data_texts part false * (data_block_length part + 8) ≤ length output.old }
    ensures { output.new ≡ sets output.old 40 (texts_of (data_blocks part picture 1 (data_texts part false) payload.now)) }
{
    let last = data_texts(part, false);
    let size = (data_block_length(part) - 3) as usize;
    for k in 1..=last {
        let before = (k - 1) as usize;
        let at = 40 + before * (size + 11);
        let from = before * size;
        write_text(
            &mut output[at..],
            picture,
            kind_of(part, k),
            &payload[from..from + size],
        );
    }
}
