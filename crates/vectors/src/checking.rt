// Vectors of check.
use crate::shape::Row;
use crate::{shape, text};
use std::io;

// Checks the numbers, and prints the rest of a line.
fn checked(rt: &impl Print, numbers: &[u32]) -> io::Result<()> {
    match graph::check(numbers) {
        Ok(()) => text::word(rt, " accepted\n"),
        Err(why) => text::refused(rt, why.number(), why.place()),
    }
}

// Checks the first numbers of the row.
pub fn first_checked(rt: &impl Print, row: &[u32], count: usize) -> io::Result<()> {
    if count <= row.len() {
        checked(rt, &row[..count])?;
    }
    Ok(())
}

// Writes each byte as a number.
fn bytes(row: &mut Row, from: usize, digits: &[u8]) -> usize {
    let mut at = from;
    for digit in digits {
        at = shape::put(row, at, wide(*digit));
    }
    at
}

fn wide(x: u8) -> u32 {
    x as u32
}

// The printed case (examples/printed), line by line.
fn printed_case(row: &mut Row) -> usize {
    let mut at = bytes(row, 0, b"\x01\x00\x02\x02\x03\x01\x00");
    at = bytes(row, at, b"\x01\x00\x00\x00\x00\x00\x00\x01\x00\x01\x00\x01");
    at = bytes(row, at, b"\x00\x00\x00\x00\x00\x00\x00\x00\x00\x00");
    at = bytes(row, at, b"\x01\x01\x00\x00\x00\x00\x00\x02\x00\x02\x01\x02");
    at = bytes(row, at, b"\x00\x00\x00\x00\x00\x00\x00\x00\x00\x00");
    at = bytes(row, at, b"\x00\x01\x00\x00\x00\x00\x00\x00\x00");
    at = bytes(row, at, b"\x01\x01\x01\x00\x00\x00\x00\x00\x00");
    at = bytes(row, at, b"\x00\x00\x00\x00\x00\x00\x01\x00\x00");
    bytes(row, at, b"\x01\x00\x00")
}

// The printed case, and no numbers at all.
pub fn printed(rt: &impl Print, row: &mut Row) -> io::Result<()> {
    let end = printed_case(row);
    text::word(rt, "check printed")?;
    first_checked(rt, row, end)?;
    text::word(rt, "check empty")?;
    first_checked(rt, row, 0)
}
