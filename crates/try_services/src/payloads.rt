// Payloads of data texts of stored parts.
ghost use Rattle.std.specs.Prelude.{◌+◌, ◌<◌, ◌≤◌, length};

use crate::parts::make;
use crate::sums::{about, about_part, length_and_sum};
use program_streams::printing::end_line;
use service_stored_part::payload::text_payload;
use std::io;
use std::io::Write;

// Every number that a data text can have, and some that none has
const NUMBERS: [u8; 14] = [0, 1, 2, 3, 4, 5, 6, 7, 8, 9, 10, 11, 12, 255];

// What stands before and behind a part: with no part open a receiver passes over it
const FREE: u8 = 0x16;

fn text<W: Write>(out: &mut W, stored: &[u8], k: u8) -> io::Result<()> {
    write!(out, "text {k}")?;
    length_and_sum(out, text_payload(stored, k))?;
    end_line(out)
}

fn all_texts<W: Write>(out: &mut W, part: &[u8]) -> io::Result<()> {
    for k in NUMBERS {
        text(out, part, k)?;
    }
    Ok(())
}

// Text 1 of bytes that are not exactly one undamaged part
fn damaged<W: Write>(out: &mut W, name: &[u8], bytes: &[u8]) -> io::Result<()> {
    about(out, name, bytes)?;
    text(out, bytes, 1)
}

// The part is `n` bytes from byte 1 of the space on
fn whole<W: Write>(out: &mut W, part: u8, space: &[u8], n: usize) -> io::Result<()>
    requires { n + 1 < length space.now }
{
    about_part(out, part, &space[1..n + 1])?;
    all_texts(out, &space[1..n + 1])
}

// The bytes before and behind it are free ones
fn around<W: Write>(out: &mut W, space: &[u8], n: usize) -> io::Result<()>
    requires { n + 1 < length space.now }
{
    damaged(out, b"preceded", &space[0..n + 1])?;
    damaged(out, b"followed", &space[1..n + 2])?;
    damaged(out, b"nothing", &space[1..1])
}

// Without its last byte
fn less<W: Write>(out: &mut W, space: &[u8], n: usize) -> io::Result<()>
    requires { (0 < n) × (n < length space.now) }
{
    damaged(out, b"cut", &space[1..n])
}

// The lowest bit of the byte in its middle
fn altered<W: Write>(out: &mut W, space: &mut [u8], n: usize) -> io::Result<()>
    requires { n + 1 < length space.old }
{
    let middle = n / 2 + 1;
    space[middle] ^= 1;
    damaged(out, b"altered", &space[1..n + 1])
}

// Makes the part in a space of free bytes, of which one stays before it and one behind
fn stretches<W: Write>(out: &mut W, number: u8, echoes: bool, space: &mut [u8]) -> io::Result<()>
    requires { 2 ≤ length space.old }
{
    let end = space.len() - 1;
    let Some(n) = make(number, echoes, &mut space[1..end]) else {
        return Ok(());
    };
    whole(out, number, space, n)?;
    around(out, space, n)?;
    less(out, space, n)?;
    altered(out, space, n)
}

fn part<W: Write>(out: &mut W, number: u8, echoes: bool) -> io::Result<()> {
    let mut space = [FREE; 20192];
    stretches(out, number, echoes, &mut space)
}

// With data, and NO ECHO, which has no data texts
pub fn lines<W: Write>(out: &mut W) -> io::Result<()> {
    for number in 1..=3 {
        part(out, number, true)?;
    }
    part(out, 1, false)
}
