// Bytes and numbers at a place of some bytes. Past their end there are zeros; of a number's bytes the
// high one comes first.
ghost use Rattle.std.specs.Prelude.{◌≡◌, ◌<◌, ℕ, drop, slice_index};
ghost use Rattle.std.specs.Int.{w16, w64, cast_signed, from_be_bytes};

pub fn byte_at(bytes: &[u8], place: usize) -> u8
    ensures { result ≡ slice_index bytes.now place }
{
    match bytes.get(place) {
        Some(b) => *b,
        None => 0,
    }
}

// The bytes from a place on, none past the end.
fn from_place(bytes: &[u8], place: usize) -> &[u8]
    ensures { result.now ≡ drop place bytes.now }
{
    match bytes.get(place..) {
        Some(rest) => rest,
        None => &[],
    }
}

// So many bytes from a place on.
pub fn bytes_at<const N: usize>(bytes: &[u8], place: usize) -> [u8; N]
    ensures { (k : ℕ) → k < N → slice_index result k ≡ slice_index (drop place bytes.now) k }
{
    let rest = from_place(bytes, place);
    let mut found = [0; N];
    for (k, b) in found.iter_mut().enumerate() {
        *b = byte_at(rest, k);
    }
    found
}

// A number of two bytes.
pub fn two_at(bytes: &[u8], place: usize) -> u16
    ensures { result ≡ from_be_bytes w16 (drop place bytes.now) }
{
    u16::from_be_bytes(bytes_at(bytes, place))
}

// A number of eight bytes in two's complement, as a minute is (Request 111).
pub fn minute_at(bytes: &[u8], place: usize) -> i64
    ensures { result ≡ cast_signed w64 (from_be_bytes w64 (drop place bytes.now)) }
{
    i64::from_be_bytes(bytes_at(bytes, place))
}
