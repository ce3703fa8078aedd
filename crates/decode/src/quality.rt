// How many meshes a complete quality part has of each value.
use crate::counts::bytes_at;
use std::io;
use std::io::Write;

// What bit 7 alone says: the cause is unknown. Notice 49, 4(2)(d)(ウ); Request 107
const UNKNOWN: u8 = 0x80;

// The causes that a value names: the place of each of bits 0 to 6 that is set. Each is one write of
// two bytes: the output has no buffer, and a value names up to seven.
// Notice 49, 4(2)(d)(ウ); Request 107
fn put_causes<W: Write>(out: &mut W, value: u8) -> io::Result<()> {
    write!(out, "causes")?;
    for cause in 0..7u8 {
        if value >> cause & 1 == 1 {
            out.write_all(&[b' ', b'0' + cause])?;
        }
    }
    Ok(())
}

// What a value says. Which cause a bit is no paper tells: it goes by its number.
// Notice 49, 4(2)(d)(ウ); Request 107
fn put_meaning<W: Write>(out: &mut W, value: u8) -> io::Result<()> {
    match value {
        0 => write!(out, "no cause"),
        UNKNOWN => write!(out, "cause unknown"),
        _ => put_causes(out, value),
    }
}

// The 100 meshes of a quality part, each `00` to `7F`, or `80`; no line for a value that does not
// occur. Notice 49, 4(2)(d)(ウ); Request 107
pub fn values<W: Write>(out: &mut W, payload: &[u8]) -> io::Result<()> {
    for value in 0..=UNKNOWN {
        let meshes = bytes_at(payload, value);
        if meshes > 0 {
            write!(out, "\n  value {value:02X}{meshes:7} meshes  ")?;
            put_meaning(out, value)?;
        }
    }
    Ok(())
}
