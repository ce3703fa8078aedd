// Calls in states with digits of the time (Request 111): four that must be answered, since an opening
// ends while a text is under way (11), and ten that must be refused (2).
use crate::refused_calls::{both, state_of};
use crate::runs::Shown;
use receiver_marks::marks::all_marks;
use std::io;
use std::io::Write;

// Place, kind, picture code, part, due text, check byte and count of the bytes seen; and the digits.
// Possible: 9 in every place, at the first place with digits and at the last; one that has still to
// come, which is not judged; none. Not possible: above 9, three times; one that is not 0 before the
// first is taken, after byte 23, at the last place, between texts, before the kind is read, in an end
// text and in a data text.
const STATES: [([u8; 7], [u8; 12]); 14] = [
    (
        [9, 0x10, 0xCC, 0, 0, 0, 5],
        [9, 9, 9, 9, 9, 9, 9, 9, 9, 9, 9, 9],
    ),
    (
        [23, 0x30, 0xCC, 0, 0, 0, 5],
        [9, 9, 9, 9, 9, 9, 9, 9, 9, 9, 9, 9],
    ),
    (
        [9, 0x20, 0xCC, 0, 0, 0, 5],
        [0, 0, 0, 0, 0, 0, 0, 0, 0, 0, 0, 1],
    ),
    (
        [16, 0x10, 0xCC, 0, 0, 0, 5],
        [0, 0, 0, 0, 0, 0, 0, 0, 0, 0, 0, 0],
    ),
    (
        [9, 0x10, 0xCC, 0, 0, 0, 5],
        [10, 0, 0, 0, 0, 0, 0, 0, 0, 0, 0, 0],
    ),
    (
        [23, 0x10, 0xCC, 0, 0, 0, 5],
        [0, 0, 0, 0, 0, 0, 0, 0, 0, 0, 0, 255],
    ),
    (
        [16, 0x20, 0xCC, 0, 0, 0, 5],
        [0, 0, 0, 0, 0, 10, 0, 0, 0, 0, 0, 0],
    ),
    (
        [8, 0x10, 0xCC, 0, 0, 0, 5],
        [1, 0, 0, 0, 0, 0, 0, 0, 0, 0, 0, 0],
    ),
    (
        [24, 0x10, 0xCC, 0, 0, 0, 5],
        [0, 0, 0, 0, 0, 0, 0, 0, 0, 0, 0, 1],
    ),
    (
        [34, 0x10, 0xCC, 0, 0, 0, 5],
        [9, 9, 9, 9, 9, 9, 9, 9, 9, 9, 9, 9],
    ),
    ([0, 0, 0, 0, 0, 0, 5], [1, 0, 0, 0, 0, 0, 0, 0, 0, 0, 0, 0]),
    (
        [2, 0, 0xCC, 0, 0, 0, 5],
        [0, 0, 0, 0, 0, 0, 0, 0, 0, 0, 0, 9],
    ),
    (
        [12, 0x1F, 0xCC, 1, 11, 0, 5],
        [0, 0, 2, 0, 0, 0, 0, 0, 0, 0, 0, 0],
    ),
    (
        [12, 0x11, 0xCC, 1, 1, 0, 5],
        [0, 0, 2, 0, 0, 0, 0, 0, 0, 0, 0, 0],
    ),
];

// Each with all twenty marks and a grid of the right length
pub fn states<W: Write>(shown: &mut Shown<W>) -> io::Result<()> {
    for (f, digits) in STATES {
        let s = state_of(shown.state, f, digits, all_marks());
        both(&mut shown.out, s, &mut shown.grid)?;
    }
    Ok(())
}
