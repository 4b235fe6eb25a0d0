// Vectors from outside, replayed: a line for each, its name and then the answer.
#![tactic(auto)]

mod checking;
mod limits;
mod reading;
mod shape;
mod text;

use std::io;

fn main(rt: HostRuntime) -> io::Result<()> {
    reading::published(&rt)?;
    reading::boundaries(&rt)?;
    reading::more(&rt)?;
    let mut row = [0u32; shape::ROOM];
    checking::printed(&rt, &mut row)?;
    limits::counts(&rt, &mut row)?;
    limits::module_lists(&rt, &mut row)?;
    limits::other_lists(&rt, &mut row)
}
