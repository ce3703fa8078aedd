// Payload bytes.
ghost use Rattle.std.specs.Prelude.{◌≡◌};
ghost use Rattle.general_laws.specs.Bytes.{every};
ghost use Rattle.text.specs.DataBlock.{is_payload_byte};

// Whether a byte may stand in the payload of a part; no byte may where there is no such part.
// Notice 49, 4(1)(1-1)(d)(ウ), 4(1)(1-2)(d)(ウ), 4(2)(d)(ウ), 5(3)(3-1) and (3-2); for quality
// Request 107
pub fn is_payload_byte(part: u8, b: u8) -> bool
    ensures { result ≡ is_payload_byte part b }
{
    match part {
        1 => (b / 16 <= 14) & (b % 16 <= 14),
        2 => b <= 8,
        3 => (b <= 0x7F) | (b == 0x80),
        _ => false,
    }
}

// Whether all bytes may stand in the payload of a part. The loop has no way out, so that the
// compiler can take many bytes at a time. Notice 49, 4(1)(1-1)(d)(ウ), 4(1)(1-2)(d)(ウ), 4(2)(d)(ウ),
// 5(3)(3-1) and (3-2); for quality Request 107
pub fn are_payload_bytes(part: u8, bytes: &[u8]) -> bool
    ensures { result ≡ every (is_payload_byte part) bytes.now }
{
    let mut kept = true;
    for b in bytes {
        kept = kept & is_payload_byte(part, *b);
    }
    kept
}
