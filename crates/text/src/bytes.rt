// Slices of bytes.
ghost use Rattle.std.specs.Prelude.{◌≡◌, eqb};
ghost use Rattle.general_laws.specs.Bytes.{every, put_at};

// Puts bytes into the output from a place on; leaves it as it is where they do not fit
pub fn put(output: &mut [u8], at: usize, bytes: &[u8])
    ensures { output.new ≡ put_at output.old at bytes.now }
{
    let end = at.saturating_add(bytes.len());
    if end <= output.len() {
        output[at..end].copy_from_slice(bytes);
    }
}

// Whether all bytes are 0. The loop has no way out, so that the compiler can take many bytes at a time
pub fn are_zero(bytes: &[u8]) -> bool
    ensures { result ≡ every (λ b. eqb b 0) bytes.now }
{
    let mut zero = true;
    for b in bytes {
        zero = zero & (*b == 0);
    }
    zero
}
