// The program `keep`: reads a graph file from standard input and prints what its run keeps, or the refusal (docs/OPERATIONS.md, Program keep).
// No contract can say what the system's standard input gives, nor what its standard output takes. So all but `main` stands in functions over any
// reader and any writer: for one whose bytes are known, `answer` says that what is written for a file is its text.
#![tactic(auto)]

ghost use Rattle.std.specs.Prelude.{length, take, drop, ◌++◌, ◌≡◌, IfOk, OnOk, IfSome};
ghost use Rattle.std.specs.Io.KnownBytes.{Appends};
ghost use Rattle.answer_text.specs.Program.{file_text};
ghost use Rattle.keep.specs.Input.{FilledUpTo, FilledFrom, ReadInto, IsFile};
ghost use Rattle.keep.specs.Output.{PartOf};

use std::io::{Read, Write};
use std::process::ExitCode;
use std::{fmt, io};

// A text is printed by parts of so many bytes. If it is longer it is formed again for each further part.
const WINDOW: usize = 8192;

#[derive(Clone, Copy)]
pub enum Part {
    // The row is full, and so many bytes of the text stand before the next part.
    Next(usize),
    // So many bytes are the last of the text.
    Last(usize),
}

// Why there is no answer, or not all of it was printed.
#[derive(Clone, Copy, Debug)]
pub enum Failure {
    Input(io::Error),
    Output(io::Error),
}

impl fmt::Display for Failure {
    fn fmt<W: fmt::Write>(&self, f: &mut fmt::Formatter<W>) -> fmt::Result {
        match self {
            Failure::Input(e) => write!(f, "standard input: {e}"),
            Failure::Output(e) => write!(f, "standard output: {e}"),
        }
    }
}

// Reads until the buffer is full or the input ends, and says how many bytes were read. A read that fails is no end of the input.
fn fill<R: Read>(reader: &mut R, buffer: &mut [u8]) -> io::Result<usize>
    ensures room { FilledUpTo (length buffer.new) result }
    ensures bytes { FilledFrom (R.remaining reader.old) (R.remaining reader.new) buffer.new result }
{
    let mut done: usize = 0;
    while done < buffer.len() {
        let count = reader.read(&mut buffer[done..])?;
        if count == 0 {
            return Ok(done);
        }
        done += count;
    }
    Ok(done)
}

// Reads into two buffers, and says how many bytes were read into each. The second one is read into only if the first is full: otherwise the input
// has ended, and at a terminal another read would wait until it is ended a second time.
fn read_file<R: Read>(
    reader: &mut R,
    front: &mut [u8],
    behind: &mut [u8],
) -> io::Result<(usize, usize)>
    ensures room { ReadInto front.new behind.new result }
    ensures first { IfOk result (λ (got, more). IfSome (R.remaining reader.old) (λ file. take got front.new ≡ take (length front.new) file)) }
    ensures rest { IfOk result (λ (got, more). IfSome (R.remaining reader.old) (λ file. take more behind.new ≡ take (length behind.new) (drop (length front.new) file))) }
{
    let got = fill(reader, front)?;
    if got < front.len() {
        return Ok((got, 0));
    }
    let more = fill(reader, behind)?;
    Ok((got, more))
}

// Puts what follows the first `skip` bytes of the text for a file into `out`, as much as it holds.
fn form_part(front: &[u8], behind: &[u8], skip: usize, out: &mut [u8]) -> Part
    requires { IsFile front.now behind.now }
    ensures { PartOf (file_text (front.now ++ behind.now)) skip out.new result }
{
    let length = answer_text::text(front, behind, skip, out);
    if length <= skip {
        return Part::Last(0);
    }
    let left = length - skip;
    if left <= out.len() {
        return Part::Last(left);
    }
    Part::Next(skip + out.len())
}

// Writes the text for a file, part by part.
fn print<W: Write>(writer: &mut W, front: &[u8], behind: &[u8]) -> io::Result<()>
    requires { IsFile front.now behind.now }
    ensures { OnOk result (Appends (W.contents writer.old) (W.contents writer.new) (file_text (front.now ++ behind.now))) }
{
    let mut skip: usize = 0;
    loop {
        let mut out = [0u8; WINDOW];
        match form_part(front, behind, skip, &mut out) {
            Part::Last(count) => return writer.write_all(&out[..count]),
            Part::Next(next) => {
                writer.write_all(&out)?;
                skip = next;
            }
        }
    }
}

// Reads a file, and writes its text.
pub fn answer<R: Read, W: Write>(reader: &mut R, writer: &mut W) -> Result<(), Failure>
    ensures { OnOk result (IfSome (R.remaining reader.old) (λ file. Appends (W.contents writer.old) (W.contents writer.new) (file_text file))) }
{
    let mut front = [0u8; 8192];
    let mut behind = [0u8; 1];
    match read_file(reader, &mut front, &mut behind) {
        Err(e) => Err(Failure::Input(e)),
        Ok((got, more)) => match print(writer, &front[..got], &behind[..more]) {
            Err(e) => Err(Failure::Output(e)),
            Ok(()) => Ok(()),
        },
    }
}

// A failure is told on standard error, and nothing is printed after it.
fn main(rt: HostRuntime) -> ExitCode {
    match answer(&mut rt.stdin(), &mut rt.stdout()) {
        Ok(()) => ExitCode::SUCCESS,
        Err(failure) => {
            let _ = eprintln!(rt; "keep: {failure}");
            ExitCode::from(2)
        }
    }
}
