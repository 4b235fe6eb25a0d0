// All tables of a graph in one slice: where each section begins, and which size of slice a graph needs.
#![tactic(auto)]

ghost use Rattle.std.specs.Prelude.{◌≡◌, ℕ, ◌+◌, ◌<◌, ◌≤◌, Bool, true, false, length, get_or};
ghost use Rattle.tables.specs.Layout.{start_of, section as section_of, Inside, Kept, Counts, FitsSize};

// The crates below, for the crates above, which list this one alone.
pub use graph_format as graph_format_crate;
use graph_format::Header;
pub use graph_format::{refusal_crate, rows_crate};

// The sections, in the order in which they are filled, and by which function.
// MODULES to ENTRIES: `graph::load`. VERDICTS: `determine_side_effects::last_verdicts`. ON_DEMAND: `on_demand::fill_on_demand`.
// BODY_OF_KEY: `on_demand::compute_body_demand_keys`. NAMESPACES: `linking_metadata::fill_namespaces`.
// FIRST_BYTE_OF: `answer_rows::fill_first_bytes`.
pub const MODULES: usize = 0;

pub const SYMBOLS: usize = 1;

pub const FIRST_STATEMENT_OF: usize = 2;

pub const STATEMENTS: usize = 3;

pub const ENTRIES: usize = 4;

pub const VERDICTS: usize = 5;

pub const ON_DEMAND: usize = 6;

pub const BODY_OF_KEY: usize = 7;

pub const NAMESPACES: usize = 8;

pub const FIRST_BYTE_OF: usize = 9;

// Words of the slice for the first five sections and for all ten: of a small graph (16 modules, 64 symbols, 64 statements, 16
// entries), of one of middle size (128, 1,024, 1,024, 128), of a large one (1,024, 4,096, 4,096, 1,024), and of the largest.
pub const SMALL_PLACES: usize = 187;

pub const SMALL: usize = 363;

pub const MIDDLE_PLACES: usize = 2443;

pub const MIDDLE: usize = 4875;

pub const LARGE_PLACES: usize = 11275;

pub const LARGE: usize = 22539;

pub const LARGEST_PLACES: usize = 35851;

pub const LARGEST: usize = 71691;

// Which tables hold a graph.
#[derive(Clone, Copy)]
pub enum Size {
    Small,
    Middle,
    Large,
    Largest,
}

// Whether the tables of a size hold a graph of these counts.
pub fn fits(h: Header, size: Size) -> bool
    ensures { result ≡ true → FitsSize h size }
{
    match size {
        Size::Small => holds(h, 16, 64),
        Size::Middle => holds(h, 128, 1024),
        Size::Large => holds(h, 1024, 4096),
        Size::Largest => holds(h, 1024, 16384),
    }
}

// Whether a graph has at most so many modules and entries, and so many symbols and statements.
fn holds(h: Header, few: usize, many: usize) -> bool
    ensures { result ≡ true → Counts h few many many few }
{
    if h.modules > few {
        return false;
    }
    if h.symbols > many {
        return false;
    }
    if h.statements > many {
        return false;
    }
    h.entries <= few
}

// Writes the layout of a graph of these counts.
pub fn lay_out(tables: &mut [usize], h: Header)
    requires { (11 ≤ length tables.old) × Counts h 1024 16384 16384 1024 }
    ensures { (k : ℕ) → k ≤ 10 → get_or tables.new k 0 ≡ start_of h k }
{
    let sizes = [
        h.modules,
        h.symbols,
        h.modules,
        h.statements,
        h.entries,
        h.modules,
        h.modules,
        h.symbols,
        h.symbols,
        h.modules,
    ];
    let mut at: usize = 11;
    for k in 0..10 {
        tables[k] = at;
        at += sizes[k];
    }
    tables[10] = at;
}

// Section k.
pub fn section(tables: &[usize], k: usize) -> &[usize]
    requires { Inside k tables.now }
    ensures { result.now ≡ section_of k tables.now }
{
    let at = tables[k];
    let end = tables[k + 1];
    &tables[at..end]
}

// Clears section k.
pub fn clear(tables: &mut [usize], k: usize)
    requires { Inside k tables.old × (k + 1 < get_or tables.old k 0) }
    ensures { Kept (get_or tables.old k 0) tables.old tables.new × ((i : ℕ) → get_or (section_of k tables.new) i 0 ≡ 0) }
{
    let end = tables[k + 1];
    for at in tables[k]..end {
        tables[at] = 0;
    }
}
