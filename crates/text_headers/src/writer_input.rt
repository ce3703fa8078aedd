// The rule of a header and modes that a writer takes (01, row 32).
ghost use Rattle.std.specs.Prelude.{◌≡◌};
ghost use Rattle.text.specs.WriterInput.{writer_header_of, is_writer_header, is_writer_input};

use text::header::{Header, WriterHeader};
use text_calendar::minutes::is_minute;
use text_codes::table::is_picture_code;
use text_radars::places::{are_modes_for, is_radar_list};

// A header without its status bytes. Notice 49, 4(1)(1-1)(c)(イ)
// Stays a function and no `From`: both types are of `text`, which alone could hold the impl.
pub fn writer_header_of(header: Header) -> WriterHeader
    ensures { result ≡ writer_header_of header }
{
    let radars = header.radars; // stays a local: an array that is a field goes into no literal straight
    WriterHeader {
        minute: header.minute,
        radars,
        clock: header.clock,
        picture: header.picture,
    }
}

// Whether a header keeps every rule of a start block (01, row 32); its minute is one of the years 0000
// to 9999 (Request 111). Notice 49, 4(1)(1-1)(c)(イ) and (d)(イ)
#[tactic(auto, unfolding(text::specs::WriterInput::is_writer_header, general_laws::specs::Bytes::all_of))]
pub fn is_writer_header(header: WriterHeader) -> bool
    ensures { result ≡ is_writer_header header }
{
    is_picture_code(header.picture)
        & (header.clock <= 16383)
        & is_minute(header.minute)
        & is_radar_list(header.radars)
}

// Whether a writer takes this header with these modes (01, row 32).
// Notice 49, 4(1)(1-1)(c)(イ) and (d)(イ)
#[tactic(auto, unfolding(text::specs::WriterInput::is_writer_input))]
pub fn is_writer_input(header: WriterHeader, modes: [u8; 8]) -> bool
    ensures { result ≡ is_writer_input header modes }
{
    is_writer_header(header) & are_modes_for(header.radars, modes)
}
