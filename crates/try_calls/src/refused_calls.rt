// Calls that must be refused: a grid of another length (1), a state that is not possible (2); and two
// that must not be, with all marks and with none.
use crate::runs::Shown;
use program_parts::lines::{contents, frame_numbers};
use program_streams::printing::{list, spaced, word};
use receiver_byte_call::calls::{CallResult, byte_call};
use receiver_marks::marks::all_marks;
use receiver_slice_call::calls::slice_call;
use receiver_state::answer::{Answer, number_of};
use receiver_state::state::{Frame, State};
use std::io;
use std::io::Write;

// Too few bytes for a grid, and too many
const LENGTHS: [usize; 3] = [0, 19999, 20001];

// Place, kind, picture code, part, due text, check byte and count of the bytes seen. Not possible:
// place 2 with no picture code; one at place 0; a check byte at place 0; place 3 with no kind; a
// place past a start text's last; a kind that is none; due text 5 of echo top; due text 1 with no
// part; part 4; six bytes seen; a data kind with no part open; an end kind where data is due.
const STATES: [[u8; 7]; 12] = [
    [2, 0, 0, 0, 0, 0x31, 5],
    [0, 0, 0xCC, 0, 0, 0, 5],
    [0, 0, 0, 0, 0, 1, 5],
    [3, 0, 0xCC, 0, 0, 0, 5],
    [35, 0x10, 0xCC, 0, 0, 0, 5],
    [3, 0x22, 0xCC, 2, 1, 0, 5],
    [0, 0, 0, 2, 5, 0, 5],
    [0, 0, 0, 0, 1, 0, 5],
    [0, 0, 0, 4, 1, 0, 5],
    [0, 0, 0, 0, 0, 0, 6],
    [3, 0x11, 0xCC, 0, 0, 0, 5],
    [3, 0x2F, 0xCC, 2, 1, 0, 5],
];

// No digit of the time waits (Request 111)
const NO_DIGITS: [u8; 12] = [0; 12];

// Between texts, no part open; and the same with six bytes seen, which is not possible
const POSSIBLE: [u8; 7] = [0, 0, 0, 0, 0, 0, 5];

const SIX_SEEN: [u8; 7] = [0, 0, 0, 0, 0, 0, 6];

fn answer_word<W: Write>(out: &mut W, answer: Answer) -> io::Result<()> {
    match answer {
        Answer::Refused(_) => word(out, b"refused"),
        _ => word(out, b"answered"),
    }
}

fn line<W: Write>(out: &mut W, call: u8, res: CallResult, grid: &[u8]) -> io::Result<()> {
    let s = res.state;
    answer_word(out, res.answer)?;
    list(out, &[call, number_of(res.answer)])?;
    spaced(out, res.count)?;
    spaced(out, s.seen)?;
    frame_numbers(out, s.frame)?;
    spaced(out, s.marks)?;
    list(out, &s.digits)?;
    contents(out, s, grid)
}

// A state with the header and modes of `held`, these digits and marks, and the control bytes as the
// last bytes seen
pub fn state_of(held: State, f: [u8; 7], digits: [u8; 12], marks: u32) -> State {
    let [place, kind, picture, part, due, check, count] = f;
    State {
        seen: 0x1616161002,
        frame: Frame {
            place: place as u16,
            kind,
            picture,
            part,
            due,
            check,
            count,
        },
        digits,
        marks,
        ..held
    }
}

// Both calls. The byte would end an opening
pub fn both<W: Write>(out: &mut W, s: State, grid: &mut [u8]) -> io::Result<()> {
    let one = byte_call(s, grid, 0xFD);
    line(out, 1, one, grid)?;
    let some = slice_call(s, grid, b"\xFD");
    line(out, 2, some, grid)
}

// Each impossible state, with all twenty marks and a grid of the right length
pub fn states<W: Write>(shown: &mut Shown<W>) -> io::Result<()> {
    for f in STATES {
        let s = state_of(shown.state, f, NO_DIGITS, all_marks());
        both(&mut shown.out, s, &mut shown.grid)?;
    }
    Ok(())
}

// A possible state with all twenty marks, with none, with the mark beyond them alone and with every
// bit set (Request 101): the last two are refused
pub fn marks<W: Write>(shown: &mut Shown<W>) -> io::Result<()> {
    for marks in [all_marks(), 0, 1048576, 4294967295] {
        let s = state_of(shown.state, POSSIBLE, NO_DIGITS, marks);
        both(&mut shown.out, s, &mut shown.grid)?;
    }
    Ok(())
}

// Each length with a possible state, and with one of six bytes seen: 1 comes before 2
pub fn lengths<W: Write>(shown: &mut Shown<W>) -> io::Result<()> {
    let possible = state_of(shown.state, POSSIBLE, NO_DIGITS, all_marks());
    let six_seen = state_of(shown.state, SIX_SEEN, NO_DIGITS, all_marks());
    let mut space = [7u8; 20001];
    for n in LENGTHS {
        if let Some(grid) = space.get_mut(..n) {
            both(&mut shown.out, possible, grid)?;
            both(&mut shown.out, six_seen, grid)?;
        }
    }
    Ok(())
}
