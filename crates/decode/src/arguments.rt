// The arguments: the picture codes to mark, each as two hexadecimal digits in upper or lower case
// (Request 101).
ghost use Rattle.std.specs.Prelude.{◌≡◌};
ghost use Rattle.decode.specs.Arguments.{before_arguments, with_code};

use receiver_marks::marks::{all_marks, mark_of};
use std::env::{Env, FillError};
use std::io;
use std::io::Write;
use text_code_words::words::code_of;
use text_codes::table::is_picture_code;

// How many bytes an argument has at most that is named with its bytes
const LONGEST: usize = 4095;

// Tells that an argument is wrong
fn name_wrong<W: Write>(errors: &mut W, number: usize, word: &[u8]) -> io::Result<()> {
    write!(
        errors,
        "decode: argument {number} is no listed picture code: "
    )?;
    errors.write_all(word)?;
    errors.write_all(b"\n")
}

// How many arguments there are, with the program's name
// Stays a loop over numbers: std's iterator of arguments, `args`, takes the heap, which no program
// here uses; one argument is asked for by its number
fn argument_count<E: Env>(env: &E) -> usize {
    let mut buffer = [0u8; 1];
    for number in 0..usize::MAX {
        if let Err(FillError::NotPresent) = env.arg(number, &mut buffer) {
            return number;
        }
    }
    usize::MAX
}

// The marks before the first argument: those of all twenty pictures where there is none
fn before_arguments(count: usize) -> u32
    ensures { result ≡ before_arguments count }
{
    if count <= 1 {
        return all_marks();
    }
    0
}

// The marks with one code more; none any longer where one of the codes is not listed
fn with_code(asked: Option<u32>, code: u8) -> Option<u32>
    ensures { result ≡ with_code asked code }
{
    let marks = asked?;
    if !is_picture_code(code) {
        return None;
    }
    Some(marks | mark_of(code))
}

// The marks that the arguments ask for; none where one of them is no listed code. Reads every one,
// also behind a wrong one, so that all wrong ones are named. One that is longer than the buffer comes
// as an empty one, and both are wrong. Argument 0 is the program's name
pub fn read<E: Env, W: Write>(env: &E, errors: &mut W) -> io::Result<Option<u32>> {
    let count = argument_count(env);
    let mut buffer = [0u8; LONGEST];
    let mut asked = Some(before_arguments(count));
    for number in 1..count {
        let n = env.arg(number, &mut buffer).unwrap_or(0);
        let word = &buffer[..n];
        let code = code_of(word);
        if !is_picture_code(code) {
            name_wrong(errors, number, word)?;
        }
        asked = with_code(asked, code);
    }
    Ok(asked)
}
