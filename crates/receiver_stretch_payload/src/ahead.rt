// The payload bytes that a slice begins with, where a data text's payload is under way, many at once.
ghost use Rattle.std.specs.Prelude.{◌≡◌, true, ◌+◌, ◌*◌, ◌-◌, ◌≤◌, take, not, position};
ghost use Rattle.text.specs.Kinds.{text_number, block_length};
ghost use Rattle.text.specs.DataBlock.{is_payload_byte};
ghost use Rattle.receiver_stretches.specs.Run.{run, after_stretch};
ghost use Rattle.receiver_stretch_payload.specs.Ahead.{is_in_payload, allowed_prefix, payload_ahead};

use receiver_bytes_seen::behind::check_behind;
use receiver_state::state::{Frame, State};
use receiver_stretches::stretch::{StretchResult, state_behind};
use text::bytes::put;
use text::payload::{are_payload_bytes, is_payload_byte};
use text_kinds::table::{is_end_kind, is_start_kind, part_of_kind, text_of_kind};
use text_lengths::block::block_length;

// Whether a data text's payload is under way. Notice 49, 4(1)(1-1)(c)(エ), 4(1)(1-2)(c)(エ), 4(2)(c)(エ)
fn is_in_payload(f: Frame) -> bool
    ensures { result ≡ is_in_payload f }
{
    (3 <= f.place)
        & (f.place < block_length(f.kind))
        & !is_start_kind(f.kind)
        & !is_end_kind(f.kind)
}

// Where the next payload byte enters the grid: data text k from byte 2,000 × (k − 1).
// Notice 49, 4(1)(1-1)(c)(エ), 4(1)(1-2)(c)(エ), 4(2)(c)(エ)
fn payload_base(f: Frame) -> usize
    requires { is_in_payload f ≡ true }
    ensures value { result ≡ 2000 * (text_number f.kind - 1) + (f.place - 3) }
    ensures place_bound { result + (block_length f.kind - f.place) ≤ 20000 }
{
    2000 * ((text_of_kind(f.kind) - 1) as usize) + ((f.place - 3) as usize)
}

// The first byte that breaks its part's rule. Notice 49, 4(1)(1-1)(d)(ウ), 4(1)(1-2)(d)(ウ), 4(2)(d)(ウ)
fn first_broken(part: u8, bytes: &[u8]) -> Option<usize>
    ensures { result ≡ position (λ b. not (is_payload_byte part b)) bytes.now }
{
    bytes.iter().position(|b| !is_payload_byte(part, *b))
}

// As many of these bytes, from the first on, as keep their part's rule. All are tested at once, without a way
// out; only where one breaks the rule is it looked for.
// Notice 49, 4(1)(1-1)(d)(ウ), 4(1)(1-2)(d)(ウ), 4(2)(d)(ウ)
fn allowed_prefix(part: u8, bytes: &[u8]) -> usize
    ensures { result ≡ allowed_prefix part bytes.now }
{
    if are_payload_bytes(part, bytes) {
        return bytes.len();
    }
    first_broken(part, bytes).unwrap_or(bytes.len())
}

// Past the payload bytes that stand here, up to the block's end and as far as they keep their rule;
// none where no payload is under way, or the grid has another length.
// Notice 49, 4(1)(1-1)(c)(エ) and (d)(ウ), 4(1)(1-2)(c)(エ) and (d)(ウ), 4(2)(c)(エ) and (d)(ウ)
pub fn payload_ahead(s: State, grid: &mut [u8], bytes: &[u8]) -> StretchResult
    ensures { after_stretch result grid.new ≡ run s grid.old (take (payload_ahead s grid.old bytes.now) bytes.now) 0 }
{
    let f = s.frame;
    if !is_in_payload(f) | (grid.len() != 20000) {
        return StretchResult { state: s, at: 0 };
    }
    let left = (block_length(f.kind) - f.place) as usize;
    let at = allowed_prefix(part_of_kind(f.kind), &bytes[..left.min(bytes.len())]);
    let payload = &bytes[..at];
    put(grid, payload_base(f), payload);
    let check = check_behind(f.check, payload);
    StretchResult {
        state: state_behind(s, f.place + at as u16, check, payload),
        at,
    }
}
