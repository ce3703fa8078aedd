// Overlays of the two sample grids.
ghost use Rattle.std.specs.Prelude.{◌<◌, ◌≤◌};

use crate::print::refused;
use crate::samples::{fill_by_place, in_first, in_second};
use crate::sums::about;
use program_streams::printing::{end_line, spaced, word};
use program_streams::sums::adler;
use service_overlay::grids::overlay;
use std::io;
use std::io::Write;

// What the third grid is full of before a call: level 15, which is no ground to refuse a grid that
// is not read
const UNTOUCHED: u8 = 0xFF;

fn line<W: Write>(out: &mut W, first: &[u8], second: &[u8], third: &mut [u8]) -> io::Result<()> {
    third.fill(UNTOUCHED);
    let (a, b, c) = (first.len(), second.len(), third.len());
    write!(out, "overlay {a} {b} {c}")?;
    match overlay(first, second, third) {
        Ok(()) => word(out, b" laid")?,
        Err(refusal) => refused(out, refusal)?,
    }
    spaced(out, adler(third))?;
    end_line(out)
}

// Either way round, each over itself, and over zeros
fn pairs<W: Write>(
    out: &mut W,
    first: &[u8],
    second: &[u8],
    zeros: &[u8],
    third: &mut [u8],
) -> io::Result<()> {
    about(out, b"grid", first)?;
    about(out, b"grid", second)?;
    line(out, first, second, third)?;
    line(out, second, first, third)?;
    line(out, first, first, third)?;
    line(out, second, second, third)?;
    line(out, first, zeros, third)?;
    line(out, zeros, second, third)
}

fn shown<W: Write>(out: &mut W) -> io::Result<()> {
    let mut first = [0u8; 20000];
    fill_by_place(&mut first, in_first);
    let mut second = [0u8; 20000];
    fill_by_place(&mut second, in_second);
    let zeros = [0u8; 20000];
    let mut third = [0u8; 20000];
    pairs(out, &first, &second, &zeros, &mut third)
}

// The two sample grids in `a` and `b` bytes, with these bytes at `place`, and a third in `c` bytes
fn altered<W: Write>(
    out: &mut W,
    a: usize,
    b: usize,
    c: usize,
    place: usize,
    one: u8,
    other: u8,
) -> io::Result<()>
    requires { (a ≤ 20001) × (b ≤ 20001) × (c ≤ 20001) × (place < 20001) }
{
    let mut first = [0u8; 20001];
    fill_by_place(&mut first, in_first);
    first[place] = one;
    let mut second = [0u8; 20001];
    fill_by_place(&mut second, in_second);
    second[place] = other;
    let mut third = [0u8; 20001];
    line(out, &first[..a], &second[..b], &mut third[..c])
}

// Row 42, for each of the three. Stays calls, as below: a table would have a row for each of 25 lines,
// and would be longer
fn length<W: Write>(out: &mut W, n: usize) -> io::Result<()>
    requires { n ≤ 20001 }
{
    altered(out, n, 20000, 20000, 0, 0, 0)?;
    altered(out, 20000, n, 20000, 0, 0, 0)?;
    altered(out, 20000, 20000, n, 0, 0, 0)
}

// Row 43, for each of the two that are read, in both halves of a byte
fn level_15<W: Write>(out: &mut W, place: usize) -> io::Result<()>
    requires { place < 20000 }
{
    altered(out, 20000, 20000, 20000, place, 0xF0, 0)?;
    altered(out, 20000, 20000, 20000, place, 0x0F, 0)?;
    altered(out, 20000, 20000, 20000, place, 0, 0xF0)?;
    altered(out, 20000, 20000, 20000, place, 0, 0x0F)
}

// 42 comes before 43; and what lies behind a grid is none of it
fn order<W: Write>(out: &mut W) -> io::Result<()> {
    altered(out, 19999, 20000, 20000, 0, 0xFF, 0xFF)?;
    altered(out, 20000, 20001, 20000, 0, 0xFF, 0xFF)?;
    altered(out, 20000, 20000, 19999, 0, 0xFF, 0xFF)?;
    altered(out, 20000, 20000, 20000, 20000, 0xFF, 0xFF)
}

pub fn lines<W: Write>(out: &mut W) -> io::Result<()> {
    shown(out)?;
    length(out, 19999)?;
    length(out, 20001)?;
    length(out, 0)?;
    level_15(out, 0)?;
    level_15(out, 10000)?;
    level_15(out, 19999)?;
    order(out)
}
