// Vectors of check: each count of the header and each list with the most that it may have, and with one more.
use crate::shape::{Row, Shape};
use crate::{checking, shape, text};
use std::io;

// Checks a graph of this shape, and prints the line.
fn line(rt: &impl Print, row: &mut Row, name: &str, s: Shape) -> io::Result<()> {
    text::word(rt, name)?;
    let end = shape::graph_of(row, s);
    checking::first_checked(rt, row, end)
}

pub fn counts(rt: &impl Print, row: &mut Row) -> io::Result<()> {
    line(
        rt,
        row,
        "count modules",
        shape::plain(1024, 1024, 1024, 0, 0),
    )?;
    line(
        rt,
        row,
        "count modules",
        shape::plain(1025, 1025, 1025, 0, 0),
    )?;
    line(rt, row, "count symbols", shape::plain(1, 16384, 1, 0, 0))?;
    line(rt, row, "count symbols", shape::plain(1, 16385, 1, 0, 0))?;
    line(rt, row, "count statements", shape::plain(1, 1, 16384, 0, 0))?;
    line(rt, row, "count statements", shape::plain(1, 1, 16385, 0, 0))?;
    line(rt, row, "count entries", shape::plain(1, 1, 1, 1024, 0))?;
    line(rt, row, "count entries", shape::plain(1, 1, 1, 1025, 0))?;
    line(rt, row, "count helpers", shape::plain(1, 1, 1, 0, 32))?;
    line(rt, row, "count helpers", shape::plain(1, 1, 1, 0, 33))
}

// 16,384 elements, and 16,385.
fn list_vector(rt: &impl Print, row: &mut Row, name: &str, which: u32) -> io::Result<()> {
    line(rt, row, name, shape::with_list(which, 16384))?;
    line(rt, row, name, shape::with_list(which, 16385))
}

pub fn module_lists(rt: &impl Print, row: &mut Row) -> io::Result<()> {
    list_vector(rt, row, "list records", 0)?;
    list_vector(rt, row, "list dependencies", 1)?;
    list_vector(rt, row, "list named imports", 2)?;
    list_vector(rt, row, "list own exports", 3)?;
    list_vector(rt, row, "list entry references", 4)?;
    list_vector(rt, row, "list K5 symbols", 5)?;
    list_vector(rt, row, "list resolved exports", 6)?;
    list_vector(rt, row, "list CommonJS namespaces", 7)?;
    list_vector(rt, row, "list enum members", 8)?;
    list_vector(rt, row, "list helpers", 9)
}

pub fn other_lists(rt: &impl Print, row: &mut Row) -> io::Result<()> {
    list_vector(rt, row, "list export chain", 10)?;
    list_vector(rt, row, "list declaring statements", 11)?;
    list_vector(rt, row, "list written-property statements", 12)?;
    list_vector(rt, row, "list statement records", 13)?;
    list_vector(rt, row, "list references", 14)?;
    list_vector(rt, row, "list depended", 15)?;
    list_vector(rt, row, "list related", 16)
}
