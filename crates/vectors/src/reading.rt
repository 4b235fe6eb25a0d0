// Vectors of read.
use crate::text;
use std::io;

// Prints the first `n` numbers.
fn numbers_read(rt: &impl Print, numbers: &[u32], n: usize) -> io::Result<()> {
    for x in numbers.iter().take(n) {
        text::number(rt, u64::from(*x))?;
    }
    text::word(rt, "\n")
}

// Reads a file into the numbers lent, and prints the line.
fn read_into(rt: &impl Print, file: &[u8], numbers: &mut [u32]) -> io::Result<()> {
    text::word(rt, "read")?;
    match leb128::read(file, numbers) {
        Ok(n) => numbers_read(rt, numbers, n),
        Err(why) => text::refused(rt, why.number(), why.place()),
    }
}

// Reads a file with room for eight numbers.
fn vector(rt: &impl Print, file: &[u8]) -> io::Result<()> {
    let mut numbers = [0u32; 8];
    read_into(rt, file, &mut numbers)
}

// Reads a file with room for one number.
fn vector_for_one(rt: &impl Print, file: &[u8]) -> io::Result<()> {
    let mut numbers = [0u32; 1];
    read_into(rt, file, &mut numbers)
}

// The unsigned examples of DWARF 5, 7.6: alone, and as one file.
pub fn published(rt: &impl Print) -> io::Result<()> {
    vector(rt, b"\x02")?;
    vector(rt, b"\x7f")?;
    vector(rt, b"\x80\x01")?;
    vector(rt, b"\x81\x01")?;
    vector(rt, b"\xb9\x64")?;
    vector(rt, b"\x02\x7f\x80\x01\x81\x01\xb9\x64")
}

// The ends of the range, the shortest form, the fifth group.
pub fn boundaries(rt: &impl Print) -> io::Result<()> {
    vector(rt, b"\x00")?;
    vector(rt, b"\x80\x00")?;
    vector(rt, b"\xff\xff\xff\xff\x0f")?;
    vector(rt, b"\xff\xff\xff\xff\x10")?;
    vector(rt, b"\x80\x80\x80\x80\x10")?;
    vector(rt, b"\x80\x80\x80\x80\x80\x01")
}

// Where a file ends, which number is at fault, and room.
pub fn more(rt: &impl Print) -> io::Result<()> {
    vector(rt, b"\x80")?;
    vector(rt, b"\x02\x80\x00")?;
    vector(rt, b"\x80\x01\x81\x00")?;
    vector_for_one(rt, b"\x02\x7f")?;
    vector_for_one(rt, b"\x02")?;
    vector(rt, b"")
}
