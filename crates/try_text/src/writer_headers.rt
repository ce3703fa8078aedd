// Minutes, modes and radars, and the headers of which they are part.
use program_streams::numbers::{byte_at, bytes_at, minute_at, two_at};
use program_streams::printing::{list, spaced};
use std::io;
use std::io::Write;
use text::header::{Header, WriterHeader};
use text_calendar::minutes::is_minute;
use text_headers::writer_input::{is_writer_header, is_writer_input, writer_header_of};
use text_radars::places::{are_modes_for, is_radar_list};
use text_status::status::highest_mode;

// Minute (Request 111), radars, clock and picture code. Stays beside the one of `try_writer`: one for
// both would be in `program_streams`, which knows bytes and numbers and no header
fn writer_header(args: &[u8]) -> WriterHeader {
    WriterHeader {
        minute: minute_at(args, 0),
        radars: bytes_at(args, 8),
        clock: two_at(args, 16),
        picture: byte_at(args, 18),
    }
}

// Stays a match over numbers, which come from standard input: the types of the functions differ, so
// that a table of them would be no plainer
pub fn result(asked: u8, args: &[u8]) -> u64 {
    match asked {
        51 => highest_mode(bytes_at(args, 0)) as u64,
        52 => is_radar_list(bytes_at(args, 0)) as u64,
        53 => are_modes_for(bytes_at(args, 0), bytes_at(args, 8)) as u64,
        54 => is_writer_header(writer_header(args)) as u64,
        55 => is_writer_input(writer_header(args), bytes_at(args, 19)) as u64,
        _ => is_minute(minute_at(args, 0)) as u64,
    }
}

// What a writer takes of a header: the header, mode and NO ECHO are the arguments
pub fn writer_header_of_header<W: Write>(out: &mut W, args: &[u8]) -> io::Result<()> {
    let found = writer_header_of(Header {
        minute: minute_at(args, 0),
        radars: bytes_at(args, 8),
        clock: two_at(args, 16),
        picture: byte_at(args, 18),
        mode: byte_at(args, 19),
        noecho: byte_at(args, 20) == 1,
    });
    spaced(out, found.minute)?;
    list(out, &found.radars)?;
    spaced(out, found.clock)?;
    spaced(out, found.picture)
}
