// A sum over bytes, by which one number shows many bytes.
ghost use Rattle.std.specs.Prelude.{◌≡◌};
ghost use Rattle.program_streams.specs.Sums;

// The sum with one byte more.
pub fn with_byte(sum: u32, b: u8) -> u32
    ensures { result ≡ Rattle.program_streams.specs.Sums.with_byte sum b }
{
    let low = (sum % 65536 + b as u32) % 65521;
    let high = (sum / 65536 + low) % 65521;
    high * 65536 + low
}

// Adler-32 begun at 0, so that zeros have 0: a sum of the bytes, and a sum of these sums, so that a
// byte's place tells too. The two are kept apart, so that the first never waits for the second: in a
// fold by `with_byte`, which takes one number apart at each byte, it would.
pub fn adler(bytes: &[u8]) -> u32
    ensures { result ≡ Rattle.program_streams.specs.Sums.adler bytes.now }
{
    let mut low: u32 = 0;
    let mut high: u32 = 0;
    for b in bytes {
        low = (low + *b as u32) % 65521;
        high = (high + low) % 65521;
    }
    high * 65536 + low
}
