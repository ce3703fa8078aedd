// Sample parts, made with the writer.
ghost use Rattle.std.specs.Prelude.{◌<◌, ◌≤◌, IfSome, length};

use crate::samples::fill_payload;
use text::header::WriterHeader;
use text_lengths::part::payload_length;
use writer::part::write_part;

const MODES: [u8; 8] = [2, 1, 3, 0, 0, 0, 0, 0];

// The minute is that of 1999.06.07.12.10 (Request 111)
fn header() -> WriterHeader {
    WriterHeader {
        minute: -298790,
        radars: [0xA0, 0xA7, 0xB3, 0, 0, 0, 0, 0],
        clock: 9983,
        picture: 0xCC,
    }
}

// Makes the part at the front of the output: how many bytes it has, none where the writer
// refuses
pub fn make(part: u8, echoes: bool, output: &mut [u8]) -> Option<usize>
    ensures { IfSome result (λ n. (0 < n) × (n ≤ length output.new)) }
{
    let mut payload = [0u8; 20000];
    fill_payload(part, echoes, &mut payload);
    let size = payload_length(part).min(20000);
    match write_part(part, header(), MODES, &payload[..size], output) {
        Ok(long) if 0 < long && long <= output.len() => Some(long),
        _ => None,
    }
}
