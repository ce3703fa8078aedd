// The block of lines that says what a complete part is. Each line begins with the end of the line
// before it.
use crate::levels::{intensity, tops};
use crate::names::{picture, radar};
use crate::quality::values;
use receiver_state::state::State;
use std::io;
use std::io::Write;
use text::header::Header;
use text_calendar::minutes::moment_of;

// The three parts. Notice 49, 3
#[derive(Clone, Copy)]
enum Part {
    Intensity,
    EchoTop,
    Quality,
}

// The part with a number; none but 1 to 3 has one
fn part_of(number: u8) -> Option<Part> {
    match number {
        1 => Some(Part::Intensity),
        2 => Some(Part::EchoTop),
        3 => Some(Part::Quality),
        _ => None,
    }
}

// A picture or radar code, and its name behind it
fn put_code<W: Write>(out: &mut W, code: u8, name: Option<&str>) -> io::Result<()> {
    write!(out, "{code:02X}")?;
    match name {
        Some(name) => write!(out, " {name}"),
        None => Ok(()),
    }
}

// Notice 49, 3
fn kind(part: Part) -> &'static str {
    match part {
        Part::Intensity => "intensity",
        Part::EchoTop => "echo top",
        Part::Quality => "quality",
    }
}

// The time by its minute (Request 111). Notice 49, 4(1)(1-1)(d)(イ)
fn time_line<W: Write>(out: &mut W, minute: i64) -> io::Result<()> {
    let t = moment_of(minute);
    write!(
        out,
        "\n  time     {:04}-{:02}-{:02}",
        t.year, t.month, t.day
    )?;
    write!(out, " {:02}:{:02}", t.hour, t.minute)
}

// A line for each radar, with its mode; none for radar 0, which is none.
// Notice 49, 4(1)(1-1)(d)(イ), 5(2)
fn radar_lines<W: Write>(out: &mut W, radars: &[u8; 8], modes: &[u8; 8]) -> io::Result<()> {
    for (code, mode) in radars.iter().zip(modes) {
        if *code != 0 {
            write!(out, "\n  radar    ")?;
            put_code(out, *code, radar(*code))?;
            write!(out, " mode {mode}")?;
        }
    }
    Ok(())
}

// What the header of a part says, and the modes of its radars. The mode is that of status 2.
// Notice 49, 4(1)(1-1)(d)(イ), 5(1)
fn header_lines<W: Write>(
    out: &mut W,
    part: Option<Part>,
    header: &Header,
    modes: &[u8; 8],
) -> io::Result<()> {
    write!(out, "\n  picture  ")?;
    put_code(out, header.picture, picture(header.picture))?;
    write!(out, "\n  kind     {}", part.map_or("", kind))?;
    time_line(out, header.minute)?;
    write!(out, "\n  clock    {}", header.clock)?;
    write!(out, "\n  mode     {}", header.mode)?;
    radar_lines(out, &header.radars, modes)?;
    write!(
        out,
        "\n  NO ECHO  {}",
        if header.noecho { "yes" } else { "no" }
    )
}

// The first bytes of a grid
fn first(grid: &[u8], n: usize) -> &[u8] {
    grid.get(..n).unwrap_or(grid)
}

// With NO ECHO the grid is all zeros, and so all meshes are at level 0
fn mesh_lines<W: Write>(out: &mut W, part: Part, grid: &[u8]) -> io::Result<()> {
    match part {
        Part::Intensity => intensity(out, grid),
        Part::EchoTop => tops(out, first(grid, 400)),
        Part::Quality => values(out, first(grid, 100)),
    }
}

// At answer 3, writes the block of the part that the state and the grid then hold, behind its first
// line. A number that no part has gives no kind and no meshes
pub fn block<W: Write>(out: &mut W, number: u8, state: &State, grid: &[u8]) -> io::Result<()> {
    let part = part_of(number);
    header_lines(out, part, &state.header, &state.modes)?;
    if let Some(part) = part {
        mesh_lines(out, part, grid)?;
    }
    write!(out, "\n\n")?;
    out.flush()
}
