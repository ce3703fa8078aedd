// Sample grids and payloads.

// The bytes that an intensity grid may have: 225, two levels from 0 to 14 each
fn intensity(n: usize) -> u8 {
    let m = n % 225;
    (m / 15 * 16 + m % 15) as u8
}

// The first sample grid: the 225 bytes in an order in which neighbours differ in both levels
pub fn in_first(i: usize) -> u8 {
    intensity(i % 225 * 16 + 27)
}

// The second: in another
pub fn in_second(i: usize) -> u8 {
    intensity(i % 225 * 7 + 200)
}

// Bytes by their places, as in a sample grid
pub fn fill_by_place<F: Fn(usize) -> u8>(bytes: &mut [u8], byte_of: F)
    requires { F.IsAlwaysCallable byte_of }
{
    for (i, b) in bytes.iter_mut().enumerate() {
        *b = byte_of(i);
    }
}

fn allowed(part: u8, i: usize) -> u8 {
    match part {
        1 => in_first(i),
        2 => (i % 9) as u8,
        _ => (29 + i % 100) as u8,
    }
}

// Bytes that the part may carry, in rising order over and over, of quality the hundred highest (`1D` to
// `80`, Request 107), where there are `echoes`; else the zeros that stand there
pub fn fill_payload(part: u8, echoes: bool, payload: &mut [u8]) {
    if echoes {
        fill_by_place(payload, |i| allowed(part, i));
    }
}
