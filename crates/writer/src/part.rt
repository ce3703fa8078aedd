// The writer (01, "The writer"): one part onto the line.
//
// From the contract to demand 2: `outcome_of` reads a call's result and output as `writer_spec` does, and
// the contract says that they are `writes` of what was handed in. So `demand-2` (writer_spec,
// proofs/Theorem) is about the bytes that this code writes: `reads_back` and `nothing_else` about all
// that it takes, `time_written` about the bytes of its time (Request 111), `rows` about all that it
// refuses, `rewritten` about what a receiver holds after a part, and `relayed` about what it holds
// after any call answered 3.
ghost use Rattle.std.specs.Prelude.{◌≡◌, true, ◌≤◌, length};
ghost use Rattle.std.proofs.lemmas.List.Edits.{sets};
ghost use Rattle.text.specs.Kinds.{is_part_number, part_length};
ghost use Rattle.text.specs.Part.{part_bytes};
ghost use Rattle.text.specs.WriterInput.{is_writer_input};
ghost use Rattle.writer_spec.specs.Written.{is_payload, writes_no_echo, written_part, writes};
ghost use Rattle.writer.specs.Returned.{outcome_of};

use crate::contents::{end_contents, start_contents};
use crate::data::{is_payload, write_datas, writes_no_echo};
use crate::one_text::write_text;
use refusals::refusal::Refusal;
use text::header::WriterHeader;
use text_headers::writer_input::is_writer_input;
use text_kinds::table::kind_of;
use text_lengths::part::part_length;

// Writes a part that keeps every rule at the front of the output.
// Notice 49, 4(1)(1-1)(a), 4(1)(1-2)(a), 4(2)(a)
fn write_taken(
    part: u8,
    header: WriterHeader,
    modes: [u8; 8],
    payload: &[u8],
    noecho: bool,
    output: &mut [u8],
)
    requires part_value { is_part_number part ≡ true }
    requires modes_value { is_writer_input header modes ≡ true }
    requires payload_value { is_payload part payload.now ≡ true }
    requires noecho_value { noecho ≡ writes_no_echo part payload.now }
    requires noecho_in_bounds { part_length part noecho ≤ length output.old }
    ensures { output.new ≡ sets output.old 0 (part_bytes (written_part part header modes payload.now)) }
{
    let start = start_contents(noecho, header, modes);
    write_text(output, header.picture, kind_of(part, 0), &start);
    if !noecho {
        write_datas(output, part, header.picture, payload);
    }
    let end = end_contents(modes);
    let at = part_length(part, noecho) - 40;
    write_text(&mut output[at..], header.picture, kind_of(part, 11), &end);
}

// The writer. Refusals in order: 31 the part, 32 header or modes, 33 the payload, 34 the output's
// length; each leaves the output as it was. Notice 49, 4(1)(1-1)(a), 4(1)(1-2)(a), 4(2)(a)
pub fn write_part(
    part: u8,
    header: WriterHeader,
    modes: [u8; 8],
    payload: &[u8],
    output: &mut [u8],
) -> Result<usize, Refusal>
    ensures { outcome_of result output.new ≡ writes part header modes payload.now output.old }
{
    if (part == 0) | (3 < part) {
        return Err(Refusal::PartNumber);
    }
    if !is_writer_input(header, modes) {
        return Err(Refusal::HeaderOrModes);
    }
    if !is_payload(part, payload) {
        return Err(Refusal::Payload);
    }
    let noecho = writes_no_echo(part, payload);
    let long = part_length(part, noecho);
    if output.len() < long {
        return Err(Refusal::OutputLength);
    }
    write_taken(part, header, modes, payload, noecho, output);
    Ok(long)
}
