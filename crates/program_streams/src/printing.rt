// Words and numbers on an output.
ghost use Rattle.std.specs.Prelude.{◌++◌, OnOk, IfSome, codes};
ghost use Rattle.std.specs.Io.KnownBytes.{Appends};
ghost use Rattle.program_streams.specs.Printed.{spaced_numbers};

use std::fmt::Display;
use std::io;
use std::io::Write;

// A word, as it stands.
pub fn word<W: Write>(out: &mut W, w: &[u8]) -> io::Result<()>
    ensures { OnOk result (Appends (W.contents out.old) (W.contents out.new) w.now) }
{
    out.write_all(w)
}

// A value that prints, as a number of any size, with a space before it.
pub fn spaced<W: Write, D: Display + Drop>(out: &mut W, value: D) -> io::Result<()>
    ensures { OnOk result (IfSome (D.output value) (λ text.
        Appends (W.contents out.old) (W.contents out.new) (codes " " ++ text))) }
{
    write!(out, " {value}")
}

// The bytes of a list, each as a number with a space before it.
pub fn list<W: Write>(out: &mut W, l: &[u8]) -> io::Result<()>
    ensures { OnOk result (Appends (W.contents out.old) (W.contents out.new)
        (spaced_numbers l.now)) }
{
    for b in l {
        spaced(out, *b)?;
    }
    Ok(())
}

// The end of a line.
pub fn end_line<W: Write>(out: &mut W) -> io::Result<()>
    ensures { OnOk result (Appends (W.contents out.old) (W.contents out.new) (codes "\n")) }
{
    out.write_all(b"\n")
}
