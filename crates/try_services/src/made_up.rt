// Bytes left, and how many marks are set, in states that are made up, possible and not.
use crate::print::{end_with, twelve};
use program_parts::lines::frame_numbers;
use program_streams::printing::{spaced, word};
use receiver_marks::marks::all_marks;
use receiver_state::state::{Frame, State, count_marks, fresh};
use service_bytes_left::left::bytes_left;
use std::io;
use std::io::Write;

// Place; kind, picture code, part, due text, check byte and count of the bytes seen. The longest text:
// its first place with the kind read, within, and its last. Before the kind is read: before the
// picture code and behind it, and with a part open. A start text before its `FF`, another before its
// `FE`, and an end text with its kind just read. Data texts of echo top and of quality, each before its
// `FE` and before its `FF`. Between texts with a part open, and with none.
const POSSIBLE: [(u16, [u8; 6]); 15] = [
    (3, [0x11, 0xCC, 1, 1, 0, 5]),
    (1000, [0x15, 0xCC, 1, 5, 0, 5]),
    (2005, [0x1A, 0xCC, 1, 10, 0, 5]),
    (1, [0, 0, 0, 0, 0, 5]),
    (2, [0, 0xCC, 0, 0, 0, 5]),
    (2, [0, 0xCC, 1, 3, 0, 5]),
    (34, [0x10, 0xCC, 0, 0, 0, 5]),
    (32, [0x30, 0xCC, 0, 0, 0, 5]),
    (3, [0x1F, 0xCC, 1, 11, 0, 5]),
    (403, [0x21, 0xCC, 2, 1, 0, 5]),
    (405, [0x21, 0xCC, 2, 1, 0, 5]),
    (103, [0x31, 0xCC, 3, 1, 0, 5]),
    (105, [0x31, 0xCC, 3, 1, 0, 5]),
    (0, [0, 0, 1, 3, 0, 5]),
    (0, [0, 0, 0, 0, 0, 5]),
];

// Past a text's last place, three times, place 3 with no kind, a picture code at place 0, a data kind
// with no part open, an end kind where data is due, six bytes seen; and past the last place of a data
// text of quality and of echo top
const IMPOSSIBLE: [(u16, [u8; 6]); 10] = [
    (2006, [0x1A, 0xCC, 1, 10, 0, 5]),
    (35, [0x10, 0xCC, 0, 0, 0, 5]),
    (65535, [0x10, 0xCC, 0, 0, 0, 5]),
    (3, [0, 0xCC, 0, 0, 0, 5]),
    (0, [0, 0xCC, 0, 0, 0, 5]),
    (3, [0x11, 0xCC, 0, 0, 0, 5]),
    (3, [0x2F, 0xCC, 2, 1, 0, 5]),
    (0, [0, 0, 0, 0, 0, 6]),
    (106, [0x31, 0xCC, 3, 1, 0, 5]),
    (406, [0x21, 0xCC, 2, 1, 0, 5]),
];

// With marks: none; that of the text under way alone; that of another picture alone; every other mark
const MARKED: [(u16, [u8; 6], u32); 4] = [
    (0, [0, 0, 0, 0, 0, 5], 0),
    (17, [0x10, 0xCC, 0, 0, 0, 5], 128),
    (17, [0x10, 0xCC, 0, 0, 0, 5], 1),
    (0, [0, 0, 0, 0, 0, 5], 699050),
];

// A mark beyond the twentieth: alone, with the first, the highest bit, and every bit (Request 101)
const BEYOND: [(u16, [u8; 6], u32); 4] = [
    (0, [0, 0, 0, 0, 0, 5], 1048576),
    (0, [0, 0, 0, 0, 0, 5], 1048577),
    (0, [0, 0, 0, 0, 0, 5], 2147483648),
    (0, [0, 0, 0, 0, 0, 5], 4294967295),
];

// With digits of the time (Request 111) and marks
fn state_line<W: Write>(
    out: &mut W,
    place: u16,
    f: [u8; 6],
    digits: [u8; 12],
    marks: u32,
) -> io::Result<()> {
    let [kind, picture, part, due, check, count] = f;
    let s = State {
        seen: 0x1616161002,
        frame: Frame {
            place,
            kind,
            picture,
            part,
            due,
            check,
            count,
        },
        digits,
        marks,
        ..fresh(0)
    };
    word(out, b"state")?;
    frame_numbers(out, s.frame)?;
    spaced(out, marks)?;
    twelve(out, digits)?;
    write!(out, " set {}", count_marks(s))?;
    end_with(out, b" left", bytes_left(s))
}

// With all twenty marks, and no digits
fn lines_of<W: Write>(out: &mut W, states: &[(u16, [u8; 6])]) -> io::Result<()> {
    for (place, f) in states {
        state_line(out, *place, *f, [0; 12], all_marks())?;
    }
    Ok(())
}

// With no digits
fn marked<W: Write>(out: &mut W, states: &[(u16, [u8; 6], u32)]) -> io::Result<()> {
    for (place, f, marks) in states {
        state_line(out, *place, *f, [0; 12], *marks)?;
    }
    Ok(())
}

// Digits of which only the first is not 0
fn first(digit: u8) -> [u8; 12] {
    [digit, 0, 0, 0, 0, 0, 0, 0, 0, 0, 0, 0]
}

// Digits of which only the last is not 0
fn last(digit: u8) -> [u8; 12] {
    [0, 0, 0, 0, 0, 0, 0, 0, 0, 0, 0, digit]
}

// With all twenty marks, and digits (Request 111): at the first place of a start text that has any, and
// at the last. Not possible: a digit above 9; one that is not 0 before the first is taken, after byte
// 23, between texts and in an end text
fn waiting<W: Write>(out: &mut W) -> io::Result<()> {
    for (place, f, digits) in [
        (9, [0x10, 0xCC, 0, 0, 0, 5], first(9)),
        (23, [0x20, 0xCC, 0, 0, 0, 5], [9; 12]),
        (17, [0x10, 0xCC, 0, 0, 0, 5], first(10)),
        (8, [0x10, 0xCC, 0, 0, 0, 5], first(1)),
        (24, [0x10, 0xCC, 0, 0, 0, 5], last(1)),
        (0, [0, 0, 0, 0, 0, 5], last(1)),
        (12, [0x1F, 0xCC, 1, 11, 0, 5], first(1)),
    ] {
        state_line(out, place, f, digits, all_marks())?;
    }
    Ok(())
}

pub fn lines<W: Write>(out: &mut W) -> io::Result<()> {
    lines_of(out, &POSSIBLE)?;
    marked(out, &MARKED)?;
    lines_of(out, &IMPOSSIBLE)?;
    marked(out, &BEYOND)?;
    waiting(out)
}
