// Graphs of a given shape, written number by number.

// Room for the largest: 16,384 symbols of nine numbers, a list of 16,385 pairs, and some forty numbers more.
pub const ROOM: usize = 180300;

pub type Row = [u32; ROOM];

// A graph's counts, which of its lists is long, and that list's count. Lists are numbered as they stand in the file:
// 0 to 9 a module's, 10 to 12 a symbol's, 13 and 14 a statement's, 15 a reference's, 16 an entry's; 17 is none.
#[derive(Clone, Copy)]
pub struct Shape {
    modules: u32,
    symbols: u32,
    statements: u32,
    entries: u32,
    helpers: u32,
    which: u32,
    count: u32,
}

// A graph of so many modules, symbols, statements, entries and helpers, with short lists.
pub fn plain(modules: u32, symbols: u32, statements: u32, entries: u32, helpers: u32) -> Shape {
    Shape {
        modules: modules,
        symbols: symbols,
        statements: statements,
        entries: entries,
        helpers: helpers,
        which: 17,
        count: 0,
    }
}

// A graph of one module, statement, entry and helper, with one long list. The symbols of CommonJS namespaces differ, so
// that list needs as many symbols as it has elements; of these there are at most 16,384.
pub fn with_list(which: u32, count: u32) -> Shape {
    let mut symbols: u32 = 1;
    if which == 7 {
        symbols = 16384;
    }
    Shape {
        modules: 1,
        symbols: symbols,
        statements: 1,
        entries: 1,
        helpers: 1,
        which: which,
        count: count,
    }
}

// Writes one number, and answers the place behind it.
pub fn put(row: &mut Row, at: usize, x: u32) -> usize {
    if at < ROOM {
        row[at] = x;
        return at + 1;
    }
    at
}

fn zeros(row: &mut Row, from: usize, count: u32) -> usize {
    let mut at = from;
    for _ in 0..count {
        at = put(row, at, 0);
    }
    at
}

// How many zeros follow the first number of an element.
fn width(list: u32) -> u32 {
    match list {
        0 | 6 => 2,
        7 | 8 | 9 | 14 => 1,
        16 => 3,
        _ => 0,
    }
}

// The first number of element k: a resolved record; a name or a symbol that is new; else 0.
fn first(list: u32, k: u32) -> u32 {
    match list {
        0 => 1,
        6 | 7 => k,
        _ => 0,
    }
}

fn elements(row: &mut Row, from: usize, list: u32, count: u32) -> usize {
    let mut at = from;
    for k in 0..count {
        at = put(row, at, first(list, k));
        at = zeros(row, at, width(list));
    }
    at
}

// A list's count. A statement's record and a related record need a record of the module, and a depended symbol a reference.
fn size(list: u32, s: Shape) -> u32 {
    if list == s.which {
        return s.count;
    }
    if list == 0 && (s.which == 13 || s.which == 16) {
        return 1;
    }
    0
}

fn list(row: &mut Row, at: usize, list: u32, s: Shape) -> usize {
    let count = size(list, s);
    let next = put(row, at, count);
    elements(row, next, list, count)
}

// The lists from `low` on, below `high`.
fn lists(row: &mut Row, from: usize, low: u32, high: u32, s: Shape) -> usize {
    let mut at = from;
    for i in low..high {
        at = list(row, at, i, s);
    }
    at
}

fn header(row: &mut Row, s: Shape) -> usize {
    let mut at = zeros(row, 0, 2);
    at = put(row, at, s.modules);
    at = put(row, at, s.symbols);
    at = put(row, at, s.statements);
    at = put(row, at, s.entries);
    at = put(row, at, s.helpers);
    zeros(row, at, s.helpers)
}

// How many statements a module has: all of them if it is the only one.
fn share(s: Shape) -> u32 {
    if s.modules == 1 { s.statements } else { 1 }
}

// A normal module whose namespace is the symbol of its own number.
fn module(row: &mut Row, from: usize, m: u32, s: Shape) -> usize {
    let mut at = put(row, from, 1);
    at = zeros(row, at, 6);
    at = put(row, at, next(m));
    at = put(row, at, 0);
    at = put(row, at, share(s));
    at = zeros(row, at, 2);
    lists(row, at, 0, 10, s)
}

// One more, or 0 where there is none.
fn next(m: u32) -> u32 {
    if m < 1000000 { m + 1 } else { 0 }
}

fn modules(row: &mut Row, from: usize, s: Shape) -> usize {
    let mut at = from;
    for m in 0..s.modules {
        at = module(row, at, m, s);
    }
    at
}

// The module of the symbol's number, else module 0.
fn owner(x: u32, s: Shape) -> u32 {
    if x < s.modules { x } else { 0 }
}

// A symbol that is its own root.
fn symbol(row: &mut Row, from: usize, x: u32, s: Shape) -> usize {
    let mut at = put(row, from, owner(x, s));
    at = put(row, at, 0);
    at = put(row, at, x);
    at = zeros(row, at, 3);
    lists(row, at, 10, 13, s)
}

fn symbols(row: &mut Row, from: usize, s: Shape) -> usize {
    let mut at = from;
    for x in 0..s.symbols {
        at = symbol(row, at, x, s);
    }
    at
}

// A statement's references: of kind 0, or one of kind 2 for its depended list.
fn references(row: &mut Row, from: usize, s: Shape) -> usize {
    if s.which == 15 {
        let mut at = put(row, from, 1);
        at = put(row, at, 2);
        at = zeros(row, at, 2);
        return list(row, at, 15, s);
    }
    list(row, from, 14, s)
}

fn statements(row: &mut Row, from: usize, s: Shape) -> usize {
    let mut at = from;
    for _ in 0..s.statements {
        at = put(row, at, 0);
        at = list(row, at, 13, s);
        at = references(row, at, s);
    }
    at
}

fn entries(row: &mut Row, from: usize, s: Shape) -> usize {
    let mut at = from;
    for _ in 0..s.entries {
        at = zeros(row, at, 2);
        at = list(row, at, 16, s);
    }
    at
}

// Writes the graph, and answers the place behind it.
pub fn graph_of(row: &mut Row, s: Shape) -> usize {
    let mut at = header(row, s);
    at = modules(row, at, s);
    at = symbols(row, at, s);
    at = statements(row, at, s);
    entries(row, at, s)
}
