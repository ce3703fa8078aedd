// One text, into its own stretch of the output.
ghost use Rattle.std.specs.Prelude.{◌≡◌, ◌+◌, ◌≤◌, length};
ghost use Rattle.std.proofs.lemmas.List.Edits.{sets};
ghost use Rattle.text.specs.Text.{text_of};
ghost use Rattle.writer_spec.specs.Written.{block_of};

use text::bytes::put;
use text::check::check_byte;

// Writes a text at the front of the output: control bytes, block, `FE`, check byte, `FF`.
// Notice 49, 4(1)(1-1)(b)(ア) to (ウ), (c)(ア) to (エ), (d)(イ) and (ウ),
// 4(1)(1-2)(c)(エ), (d)(イ) and (ウ), 4(2)(c)(エ), (d)(イ) and (ウ)
pub(crate) fn write_text(output: &mut [u8], picture: u8, kind: u8, contents: &[u8])
    requires { length contents.now + 11 ≤ length output.old }
    ensures { output.new ≡ sets output.old 0 (text_of (block_of picture kind contents.now)) }
{
    let behind = 8 + contents.len();
    put(
        output,
        0,
        &[0x16, 0x16, 0x16, 0x10, 0x02, 0xFD, picture, kind],
    );
    put(output, 8, contents);
    let check = check_byte(&output[5..behind]);
    put(output, behind, &[0xFE, check, 0xFF]);
}
