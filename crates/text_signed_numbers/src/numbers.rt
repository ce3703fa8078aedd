// Signed numbers of 64 bits, as a minute is (Request 111).
ghost use Rattle.std.specs.Prelude.{◌≡◌, nat_abs};
ghost use Rattle.std.specs.Int.{w64};
ghost use Rattle.std.proofs.Common.{to_z};

// How far a number is from 0
pub fn distance(n: i64) -> u64
    ensures { result ≡ nat_abs n }
{
    n.unsigned_abs()
}

// The number that 64 bits are in two's complement
pub fn of_pattern(pattern: u64) -> i64
    ensures { result ≡ to_z w64 pattern }
{
    pattern.cast_signed()
}
