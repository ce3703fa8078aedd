// The line of a request, by what is asked.
ghost use Rattle.std.specs.Prelude.{◌<◌};

use crate::{blocks, bytes, dates, pairs, times, writer_headers};
use program_streams::numbers::byte_at;
use program_streams::printing::{end_line, spaced};
use std::io;
use std::io::Write;

// How many bytes of the arguments are asked about at a time, or all at once.
// Stays a match over numbers, here and below: what is asked comes as a byte from standard input, and
// a table of functions would be no plainer, since their types differ
fn group_length(asked: u8) -> usize
    ensures { 0 < result }
{
    match asked {
        0..=19 => 1,
        20..=40 => 2,
        41 => 3,
        42 => 6,
        _ => usize::MAX,
    }
}

// The result for a group. Stays a match over numbers, as above
fn result(asked: u8, group: &[u8]) -> u64 {
    match asked {
        0..=19 => bytes::result(asked, byte_at(group, 0)),
        20..=39 => pairs::result(asked, byte_at(group, 0), byte_at(group, 1)),
        40..=49 => dates::result(asked, group),
        50..=59 => writer_headers::result(asked, group),
        _ => blocks::result(asked, group),
    }
}

// The results for all groups; there is always a first, if need be of no bytes
fn results<W: Write>(out: &mut W, asked: u8, args: &[u8]) -> io::Result<()> {
    if args.is_empty() {
        return spaced(out, result(asked, args));
    }
    for group in args.chunks(group_length(asked)) {
        spaced(out, result(asked, group))?;
    }
    Ok(())
}

// Stays a match over numbers, as above
pub fn line<W: Write>(out: &mut W, asked: u8, args: &[u8]) -> io::Result<()> {
    write!(out, "{asked}")?;
    match asked {
        50 => times::check(out, args),
        56 => writer_headers::writer_header_of_header(out, args),
        58 => times::digits(out, args),
        64 => blocks::put_into(out, args),
        _ => results(out, asked, args),
    }?;
    end_line(out)
}
