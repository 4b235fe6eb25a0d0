// The parts of the graph file: one module, one symbol, one statement.
#![tactic(auto)]

ghost use Rattle.std.specs.Prelude.{◌≡◌, ℕ, ◌+◌, ◌*◌, ◌<◌, ◌≤◌, List, [], ◌∷◌, eqb, length, get_or, drop};
ghost use Rattle.rows.specs.Walk.{walk_of, cells, lists, list, number, many, firsts, item};
ghost use Rattle.graph_format.specs.Format.{module_rules, namespace_limit, least_statements, statement_limit, import_lists, export_lists, name_lists, module_lists, module_at, symbol_rules, symbol_lists, owners_counts, member_rules, reference_at, parts_at, depended_at, statement_at, reference_list};

// The crates below, for the crates above, which list this one alone.
pub use rows as rows_crate;
pub use rows::refusal_crate;
use rows::refusal_crate::Refusal;

// The header's numbers.
#[derive(Clone, Copy)]
pub struct Header {
    pub options: usize,
    pub runtime: usize,
    pub modules: usize,
    pub symbols: usize,
    pub statements: usize,
    pub entries: usize,
    pub helpers: usize,
}

// How far the modules are read: the statements that are no module's yet, and the modules that are not read.
#[derive(Clone, Copy)]
pub struct Left {
    pub statements: usize,
    pub modules: usize,
}

// A limit of a number that may be any.
const ANY: usize = 4294967296;

fn namespace_limit(kind: usize, symbols: usize) -> usize
    requires { symbols < 4294967296 }
    ensures { result ≡ namespace_limit kind symbols }
{
    if kind == 0 { 1 } else { symbols + 1 }
}

fn least_statements(kind: usize, left: usize, last: bool) -> usize
    ensures { result ≡ least_statements kind left last }
{
    if last {
        if left < kind {
            return kind;
        }
        return left;
    }
    kind
}

fn statement_limit(kind: usize, left: usize) -> usize
    requires { left < 4294967296 }
    ensures { result ≡ statement_limit kind left }
{
    if kind == 0 { 1 } else { left + 1 }
}

// A module's numbers from its namespace on; its first number stands at `at`.
fn module_counts(
    numbers: &[u32],
    at: usize,
    q: usize,
    h: Header,
    left: Left,
) -> Result<usize, Refusal>
    requires { (at < length numbers.now) × (h.symbols < 4294967296) × (left.statements < 4294967296) }
    ensures { result ≡ walk_of (cells (drop 7 (module_rules h (get_or numbers.now at 0) left.statements (eqb left.modules 1))) numbers.now q) }
{
    let kind = rows::wide(numbers[at]);
    let highest = namespace_limit(kind, h.symbols);
    let least = least_statements(kind, left.statements, left.modules == 1);
    let limit = statement_limit(kind, left.statements);
    let a = rows::within(numbers, q, kind, highest)?;
    let b = rows::row(numbers, a, 1, ANY, 0, 0)?;
    let c = rows::within(numbers, b, least, limit)?;
    rows::row(numbers, c, 2, 5, ANY, 0)
}

// A module's twelve numbers.
fn module_head(numbers: &[u32], at: usize, h: Header, left: Left) -> Result<usize, Refusal>
    requires { (h.symbols < 4294967296) × (left.statements < 4294967296) }
    ensures { result ≡ walk_of (cells (module_rules h (get_or numbers.now at 0) left.statements (eqb left.modules 1)) numbers.now at) }
{
    let wrapper = h.symbols + 1;
    let a = rows::row(numbers, at, 3, 2, 5, 3)?;
    let b = rows::row(numbers, a, 3, 4, 64, 3)?;
    let c = rows::row(numbers, b, 1, wrapper, 0, 0)?;
    module_counts(numbers, at, c, h, left)
}

// Records, dependencies, named imports.
fn import_lists(numbers: &[u32], at: usize, h: Header) -> Result<usize, Refusal>
    requires { h.modules < 4294967296 }
    ensures { result ≡ walk_of (lists (import_lists h numbers.now) numbers.now at) }
{
    let targets = h.modules + 1;
    let a = rows::rows(numbers, at, 16385, false, 3, targets, 3, 4)?;
    let b = rows::rows(numbers, a, 16385, false, 1, h.modules, 0, 0)?;
    rows::rows(numbers, b, 16385, false, 1, h.symbols, 0, 0)
}

// Own exports, entry references, K5 symbols.
fn export_lists(numbers: &[u32], at: usize, h: Header) -> Result<usize, Refusal>
    ensures { result ≡ walk_of (lists (export_lists h numbers.now) numbers.now at) }
{
    let a = rows::rows(numbers, at, 16385, false, 1, h.symbols, 0, 0)?;
    let b = rows::rows(numbers, a, 16385, false, 1, h.symbols, 0, 0)?;
    rows::rows(numbers, b, 16385, false, 1, h.symbols, 0, 0)
}

// Resolved exports, CommonJS namespaces, enum members, helpers of a module of `count` statements.
fn name_lists(numbers: &[u32], at: usize, h: Header, count: usize) -> Result<usize, Refusal>
    ensures { result ≡ walk_of (lists (name_lists h numbers.now count) numbers.now at) }
{
    let a = rows::rows(numbers, at, 16385, true, 3, ANY, h.symbols, 2)?;
    let b = rows::rows(numbers, a, 16385, true, 2, h.symbols, h.modules, 0)?;
    let c = rows::rows(numbers, b, 16385, false, 2, ANY, ANY, 0)?;
    rows::rows(numbers, c, 16385, false, 2, h.helpers, count, 0)
}

// A module: its numbers, then its lists.
pub fn module(numbers: &[u32], at: usize, h: Header, left: Left) -> Result<usize, Refusal>
    requires { (h.symbols < 4294967296) × (h.modules < 4294967296) × (left.statements < 4294967296) }
    ensures { result ≡ walk_of (module_at h numbers.now left at) }
{
    let a = module_head(numbers, at, h, left)?;
    let count = rows::wide(numbers[at + 9]);
    let b = import_lists(numbers, a, h)?;
    let c = export_lists(numbers, b, h)?;
    name_lists(numbers, c, h, count)
}

// A symbol's six numbers.
pub fn symbol_head(numbers: &[u32], at: usize, h: Header) -> Result<usize, Refusal>
    requires { h.symbols < 4294967296 }
    ensures { result ≡ walk_of (cells (symbol_rules h) numbers.now at) }
{
    let aliases = h.symbols + 1;
    let a = rows::row(numbers, at, 3, h.modules, ANY, h.symbols)?;
    rows::row(numbers, a, 3, aliases, ANY, 8)
}

// A symbol's lists, where its owner has `count` statements.
pub fn symbol_lists(numbers: &[u32], at: usize, h: Header, count: usize) -> Result<usize, Refusal>
    ensures { result ≡ walk_of (lists (symbol_lists h numbers.now count) numbers.now at) }
{
    let counts = owners_counts(count);
    let a = rows::rows(numbers, at, 16385, false, 1, h.symbols, 0, 0)?;
    let b = rows::rows(numbers, a, counts, false, 1, count, 0, 0)?;
    rows::rows(numbers, b, counts, false, 1, count, 0, 0)
}

// How many statements of an owner of `count` a list may name, and one more.
fn owners_counts(count: usize) -> usize
    ensures { result ≡ owners_counts count }
{
    if count == 0 { 1 } else { 16385 }
}

// The parts of a reference of kind 2: a symbol, CommonJS target, the symbols depended on.
fn depended(numbers: &[u32], at: usize, symbols: usize) -> Result<usize, Refusal>
    ensures { result ≡ walk_of (depended_at symbols numbers.now at) }
{
    let a = rows::row(numbers, at, 2, symbols, 2, 0)?;
    rows::rows(numbers, a, 16385, false, 1, symbols, 0, 0)
}

// The parts of a reference of kind 3: an object, write, property count, first property.
fn member(numbers: &[u32], at: usize, symbols: usize) -> Result<usize, Refusal>
    ensures { result ≡ walk_of (cells (member_rules symbols) numbers.now at) }
{
    let a = rows::row(numbers, at, 3, symbols, 2, ANY)?;
    rows::row(numbers, a, 1, ANY, 0, 0)
}

// The parts of a reference, by its kind.
fn parts(numbers: &[u32], at: usize, kind: usize, symbols: usize) -> Result<usize, Refusal>
    ensures { result ≡ walk_of (parts_at kind symbols numbers.now at) }
{
    if kind == 0 {
        return rows::row(numbers, at, 1, symbols, 0, 0);
    }
    if kind == 1 {
        return Ok(at);
    }
    if kind == 2 {
        return depended(numbers, at, symbols);
    }
    member(numbers, at, symbols)
}

// A reference.
fn reference(numbers: &[u32], at: usize, symbols: usize) -> Result<usize, Refusal>
    ensures { result ≡ walk_of (reference_at symbols numbers.now [] at) }
{
    let a = rows::within(numbers, at, 0, 4)?;
    let kind = rows::wide(numbers[at]);
    parts(numbers, a, kind, symbols)
}

// `count` references.
fn references(numbers: &[u32], at: usize, count: usize, symbols: usize) -> Result<usize, Refusal>
    ensures { result ≡ walk_of (many (reference_at symbols numbers.now) firsts count [] at) }
{
    let mut q = at;
    for _k in 0..count {
        q = reference(numbers, q, symbols)?;
    }
    Ok(q)
}

// A list of references.
fn reference_list(numbers: &[u32], at: usize, symbols: usize) -> Result<usize, Refusal>
    ensures { result ≡ walk_of (list (reference_list symbols numbers.now) numbers.now at) }
{
    let a = rows::counter(numbers, at, 16384, 0, 16385)?;
    let count = rows::wide(numbers[at]);
    references(numbers, a, count, symbols)
}

// A statement of a module of `import records` import records.
pub fn statement(numbers: &[u32], at: usize, h: Header, imports: usize) -> Result<usize, Refusal>
    ensures { result ≡ walk_of (statement_at h imports numbers.now 0 at) }
{
    let a = rows::row(numbers, at, 1, 32, 0, 0)?;
    let b = rows::rows(numbers, a, 16385, false, 1, imports, 0, 0)?;
    reference_list(numbers, b, h.symbols)
}
