// What the lines are made of.
use std::io;

pub fn word(rt: &impl Print, text: &str) -> io::Result<()> {
    rt.print(text)
}

// A space and a number.
pub fn number(rt: &impl Print, x: u64) -> io::Result<()> {
    print!(rt; " {x}")
}

// The rest of a line: a refusal's number and its place.
pub fn refused(rt: &impl Print, n: u32, p: usize) -> io::Result<()> {
    println!(rt; " refused {n} {p}")
}
