// The answer rows of a drain: the bits that the facts of its lines show.
#![tactic(auto)]

ghost use Rattle.std.specs.Prelude.{◌≡◌, ℕ, ◌+◌, ◌*◌, ◌-◌, ◌<◌, ◌≤◌, true, false, ◌||◌, not, [], length, drop};
ghost use Rattle.bit_row.specs.Row.{bit_at};
ghost use Rattle.determine_side_effects.specs.graph_tables_crate.Tables.{header_in};
ghost use Rattle.determine_side_effects.specs.graph_crate.Check.{graph_in};
ghost use Rattle.determine_side_effects.specs.graph_access_crate.Words.{normal};
ghost use Rattle.determine_side_effects.specs.facts_crate.Facts.{Good};
ghost use Rattle.determine_side_effects.specs.graph_crate.Loaded.{Loaded};
ghost use Rattle.keep_rules.specs.Prepared.{Prepared};
ghost use Rattle.keep_record.specs.Lines.{elem};
ghost use Rattle.keep_record.specs.Held.{line_at, lines_of};
ghost use Rattle.answer_rows.specs.Shown.{bytes_before, used_by, external_by, json_by, reason_by, row_bytes, only_if, rows_enough};
ghost use Rattle.answer_rows.specs.Together.{six_rows, lengths_of, Shows, FactShown, LinesShown, RowsShown};
ghost use Rattle.answer_rows.specs.Tabled.{FirstByteTable, FirstBytes};
ghost use Rattle.determine_side_effects.specs.tables_crate.Layout.{start_of, Laid, Kept, first_bytes_in, at_first_bytes, all_sections};
ghost use Rattle.determine_side_effects.specs.graph_access_crate.Names.{owner as owner_in};
ghost use Rattle.determine_side_effects.specs.graph_access_crate.Words.{symbol_of};
ghost use Rattle.determine_side_effects.specs.facts_crate.declared.Fact.TheVariants.{Module, Use};
ghost use Rattle.answer_rows.specs.declared.Row.TheVariants.{Modules, Statements, Used, External, Json, NamespaceReason};

use determine_side_effects::facts_crate::{Fact, Reason};
use determine_side_effects::graph_access_crate::{modules, symbols};
use determine_side_effects::index_crate::{ModuleIdx, SymbolIdx};
use determine_side_effects::tables_crate::FIRST_BYTE_OF;

// The rows of an answer: modules kept, statements kept, symbols used, external symbols used, Json symbols used from outside,
// and for each module why its namespace is included.
#[derive(Clone, Copy)]
pub enum Row {
    Modules,
    Statements,
    Used,
    External,
    Json,
    NamespaceReason,
}

// The lengths of the six answer rows.
#[derive(Clone, Copy)]
pub struct Lengths {
    pub modules: usize,
    pub statements: usize,
    pub used: usize,
    pub external: usize,
    pub json: usize,
    pub reason: usize,
}

// Fills the section of the modules' first bytes in the statement row.
pub fn fill_first_bytes(numbers: &[u32], tables: &mut [usize])
    requires loaded { Loaded numbers.now tables.old }
    requires laid { Laid (header_in numbers.now) all_sections tables.old }
    ensures { FirstByteTable (graph_in numbers.now) (first_bytes_in tables.new) × Kept (start_of (header_in numbers.now) at_first_bytes) tables.old tables.new }
{
    let h = determine_side_effects::graph_crate::header_of(numbers);
    let base = tables[FIRST_BYTE_OF];
    let mut total: usize = 0;
    for m in 0..h.modules {
        tables[base + m] = total;
        total += bit_row::bytes_for(modules::statement_count(numbers, tables, ModuleIdx(m)));
    }
}

// A module's first byte in the statement row.
fn first_byte_of(numbers: &[u32], tables: &[usize], m: ModuleIdx) -> usize
    requires first_bytes { FirstBytes numbers.now tables.now }
    requires m_bound { m.0 < (header_in numbers.now).modules }
    ensures { result ≡ bytes_before (graph_in numbers.now).statements m.0 }
{
    let bytes = determine_side_effects::tables_crate::section(tables, FIRST_BYTE_OF);
    let i = m.0;
    bytes[i]
}

// Shows the symbols that a use keeps used.
fn show_used(numbers: &[u32], tables: &[usize], s: SymbolIdx, x: Reason, bits: &mut [u8])
    requires prepared { Prepared numbers.now tables.now }
    requires s_bound { (s.0 < (header_in numbers.now).symbols) × ((header_in numbers.now).symbols ≤ 8 * length bits.old) }
    ensures { (j : ℕ) → bit_at bits.new j ≡ (elem j (used_by (graph_in numbers.now) s.0 x.bits) || bit_at bits.old j) }
{
    if include_symbol::is_bypassed_inlined_constant(numbers, tables, s, x) {
        return;
    }
    let t = linking_metadata::target_of(numbers, tables, s);
    bit_row::set(bits, t.0);
    bit_row::set(bits, s.0);
}

// Shows a symbol if its owner is external.
fn show_if_external(numbers: &[u32], tables: &[usize], s: SymbolIdx, bits: &mut [u8])
    requires prepared { Prepared numbers.now tables.now }
    requires s_bound { (s.0 < (header_in numbers.now).symbols) × ((header_in numbers.now).symbols ≤ 8 * length bits.old) }
    ensures { (j : ℕ) → bit_at bits.new j ≡ (elem j (only_if (not (normal (graph_in numbers.now) (owner_in (symbol_of (graph_in numbers.now) s.0)))) s.0) || bit_at bits.old j) }
{
    let owner = symbols::owner(numbers, tables, s);
    if modules::is_normal(numbers, tables, owner) {
        return;
    }
    bit_row::set(bits, s.0);
}

// Shows the external symbols that a use keeps used.
fn show_external(numbers: &[u32], tables: &[usize], s: SymbolIdx, x: Reason, bits: &mut [u8])
    requires prepared { Prepared numbers.now tables.now }
    requires s_bound { (s.0 < (header_in numbers.now).symbols) × ((header_in numbers.now).symbols ≤ 8 * length bits.old) }
    ensures { (j : ℕ) → bit_at bits.new j ≡ (elem j (external_by (graph_in numbers.now) s.0 x.bits) || bit_at bits.old j) }
{
    if include_symbol::is_bypassed_inlined_constant(numbers, tables, s, x) {
        return;
    }
    show_if_external(
        numbers,
        tables,
        linking_metadata::target_of(numbers, tables, s),
        bits,
    );
    show_if_external(numbers, tables, s, bits);
}

// Shows the Json symbol that a use keeps from being inlined.
fn note_json_self_reference(
    numbers: &[u32],
    tables: &[usize],
    s: SymbolIdx,
    x: Reason,
    bits: &mut [u8],
)
    requires prepared { Prepared numbers.now tables.now }
    requires s_bound { (s.0 < (header_in numbers.now).symbols) × ((header_in numbers.now).symbols ≤ 8 * length bits.old) }
    ensures { (j : ℕ) → bit_at bits.new j ≡ (elem j (json_by (graph_in numbers.now) s.0 x.bits) || bit_at bits.old j) }
{
    if include_symbol::is_bypassed_inlined_constant(numbers, tables, s, x) {
        return;
    }
    let t = linking_metadata::target_of(numbers, tables, s);
    let owner = symbols::owner(numbers, tables, t);
    if !modules::is_normal(numbers, tables, owner) {
        return;
    }
    if modules::module_type(numbers, tables, owner) != 2 {
        return;
    }
    if determine_side_effects::facts_crate::flag(x.bits, 3) {
        return;
    }
    bit_row::set(bits, t.0);
}

// Shows why a use includes a namespace.
fn note_namespace_inclusion_reason(
    numbers: &[u32],
    tables: &[usize],
    s: SymbolIdx,
    x: Reason,
    bits: &mut [u8],
)
    requires prepared { Prepared numbers.now tables.now }
    requires s_bound { (s.0 < (header_in numbers.now).symbols) × ((header_in numbers.now).modules ≤ length bits.old) }
    ensures { (j : ℕ) → bit_at bits.new j ≡ (elem j (reason_by (graph_in numbers.now) s.0 x.bits) || bit_at bits.old j) }
{
    if include_symbol::is_bypassed_inlined_constant(numbers, tables, s, x) {
        return;
    }
    let t = linking_metadata::target_of(numbers, tables, s);
    if !linking_metadata::is_namespace(numbers, tables, t) {
        return;
    }
    let owner = symbols::owner(numbers, tables, t);
    if determine_side_effects::facts_crate::flag(x.bits, 0) {
        bit_row::set(bits, 8 * owner.0);
        return;
    }
    if determine_side_effects::facts_crate::flag(x.bits, 1) {
        bit_row::set(bits, 8 * owner.0);
        return;
    }
    if determine_side_effects::facts_crate::flag(x.bits, 2) {
        bit_row::set(bits, 8 * owner.0 + 1);
    }
}

// Shows what a use shows. Json symbols and why a namespace is included are shown of the main part alone.
fn show_use(
    numbers: &[u32],
    tables: &[usize],
    s: SymbolIdx,
    x: Reason,
    main: bool,
    used: &mut [u8],
    external: &mut [u8],
    json: &mut [u8],
    reason: &mut [u8],
)
    requires prepared { Prepared numbers.now tables.now }
    requires s_bound { s.0 < (header_in numbers.now).symbols }
    requires numbers_bound { ((header_in numbers.now).symbols ≤ 8 * length used.old) × ((header_in numbers.now).symbols ≤ 8 * length external.old) × ((header_in numbers.now).symbols ≤ 8 * length json.old) × ((header_in numbers.now).modules ≤ length reason.old) }
    ensures { Shows (graph_in numbers.now) Used true (Use s x) used.old used.new × Shows (graph_in numbers.now) External true (Use s x) external.old external.new × Shows (graph_in numbers.now) Json main (Use s x) json.old json.new × Shows (graph_in numbers.now) NamespaceReason main (Use s x) reason.old reason.new }
{
    show_used(numbers, tables, s, x, used);
    show_external(numbers, tables, s, x, external);
    if main {
        note_json_self_reference(numbers, tables, s, x, json);
        note_namespace_inclusion_reason(numbers, tables, s, x, reason);
    }
}

// Shows what a module shows.
fn show_module(
    numbers: &[u32],
    tables: &[usize],
    m: ModuleIdx,
    main: bool,
    modules_row: &mut [u8],
    reason: &mut [u8],
)
    requires prepared { Prepared numbers.now tables.now }
    requires m_bound { (m.0 < (header_in numbers.now).modules) × ((header_in numbers.now).modules ≤ 8 * length modules_row.old) × ((header_in numbers.now).modules ≤ length reason.old) }
    ensures { Shows (graph_in numbers.now) Modules true (Module m) modules_row.old modules_row.new × Shows (graph_in numbers.now) NamespaceReason main (Module m) reason.old reason.new }
{
    bit_row::set(modules_row, m.0);
    if main {
        if include_module::dev_namespace(numbers, tables, m) {
            bit_row::set(reason, 8 * m.0);
        }
    }
}

// Shows what a fact shows; a statement in the part of its row that begins with its module's first byte.
fn show_fact(
    numbers: &[u32],
    tables: &[usize],
    fact: Fact,
    main: bool,
    modules_row: &mut [u8],
    statements_row: &mut [u8],
    used: &mut [u8],
    external: &mut [u8],
    json: &mut [u8],
    reason: &mut [u8],
)
    requires prepared { Prepared numbers.now tables.now × FirstBytes numbers.now tables.now }
    requires good { Good (graph_in numbers.now) fact }
    requires reason_value { rows_enough (graph_in numbers.now) (lengths_of (six_rows modules_row.old statements_row.old used.old external.old json.old reason.old)) ≡ true }
    ensures { FactShown (graph_in numbers.now) main fact (six_rows modules_row.old statements_row.old used.old external.old json.old reason.old) (six_rows modules_row.new statements_row.new used.new external.new json.new reason.new) }
{
    match fact {
        Fact::Module(m) => show_module(numbers, tables, m, main, modules_row, reason),
        Fact::Statement(m, i) => {
            bit_row::set_in_part(statements_row, first_byte_of(numbers, tables, m), i.0);
        }
        Fact::Use(s, x) => show_use(numbers, tables, s, x, main, used, external, json, reason),
        Fact::CheckedUse(_, _) => {}
        Fact::Forward(_) => {}
        Fact::Bailout(_) => {}
    }
}

// Shows what the lines from number `from` to `to` show, lines of the main part or not.
fn show_lines(
    numbers: &[u32],
    tables: &[usize],
    lines: &[u32],
    from: usize,
    to: usize,
    main: bool,
    modules_row: &mut [u8],
    statements_row: &mut [u8],
    used: &mut [u8],
    external: &mut [u8],
    json: &mut [u8],
    reason: &mut [u8],
)
    requires prepared { Prepared numbers.now tables.now × FirstBytes numbers.now tables.now }
    requires reason_value { rows_enough (graph_in numbers.now) (lengths_of (six_rows modules_row.old statements_row.old used.old external.old json.old reason.old)) ≡ true }
    requires from_le_to { (from ≤ to) × (6 * to ≤ length lines.now) × ((k : ℕ) → k < to → Good (graph_in numbers.now) (line_at lines.now k).fact) }
    ensures { LinesShown (graph_in numbers.now) main (drop from (lines_of to lines.now)) (six_rows modules_row.old statements_row.old used.old external.old json.old reason.old) (six_rows modules_row.new statements_row.new used.new external.new json.new reason.new) }
{
    for k in from..to {
        show_fact(
            numbers,
            tables,
            keep_record::fact_at(lines, k),
            main,
            modules_row,
            statements_row,
            used,
            external,
            json,
            reason,
        );
    }
}

// How many bytes the statements of all modules take.
fn statement_bytes(numbers: &[u32], tables: &[usize]) -> usize
    requires { Loaded numbers.now tables.now × FirstBytes numbers.now tables.now }
    ensures { result ≡ row_bytes (graph_in numbers.now) Statements }
{
    let h = determine_side_effects::graph_crate::header_of(numbers);
    let last = ModuleIdx(h.modules - 1);
    first_byte_of(numbers, tables, last)
        + bit_row::bytes_for(modules::statement_count(numbers, tables, last))
}

// How many bytes the answer of a row has.
pub fn row_bytes(numbers: &[u32], tables: &[usize], row: Row) -> usize
    requires { Loaded numbers.now tables.now × FirstBytes numbers.now tables.now }
    ensures { result ≡ row_bytes (graph_in numbers.now) row }
{
    let h = determine_side_effects::graph_crate::header_of(numbers);
    match row {
        Row::Modules => bit_row::bytes_for(h.modules),
        Row::Statements => statement_bytes(numbers, tables),
        Row::Used => bit_row::bytes_for(h.symbols),
        Row::External => bit_row::bytes_for(h.symbols),
        Row::Json => bit_row::bytes_for(h.symbols),
        Row::NamespaceReason => h.modules,
    }
}

// Whether six answer rows of these lengths are long enough.
pub fn are_long_enough(numbers: &[u32], tables: &[usize], lengths: Lengths) -> bool
    requires { Loaded numbers.now tables.now × FirstBytes numbers.now tables.now }
    ensures { result ≡ rows_enough (graph_in numbers.now) lengths }
{
    if lengths.modules < row_bytes(numbers, tables, Row::Modules) {
        return false;
    }
    if lengths.statements < row_bytes(numbers, tables, Row::Statements) {
        return false;
    }
    let symbols = row_bytes(numbers, tables, Row::Used);
    if lengths.used < symbols {
        return false;
    }
    if lengths.external < symbols {
        return false;
    }
    if lengths.json < symbols {
        return false;
    }
    lengths.reason >= row_bytes(numbers, tables, Row::NamespaceReason)
}

// Clears the answer's bytes of the six rows; what is behind them stays as lent.
fn clear_rows(
    numbers: &[u32],
    tables: &[usize],
    modules_row: &mut [u8],
    statements_row: &mut [u8],
    used: &mut [u8],
    external: &mut [u8],
    json: &mut [u8],
    reason: &mut [u8],
)
    requires loaded { Loaded numbers.now tables.now × FirstBytes numbers.now tables.now }
    requires reason_value { rows_enough (graph_in numbers.now) (lengths_of (six_rows modules_row.old statements_row.old used.old external.old json.old reason.old)) ≡ true }
    ensures { RowsShown (graph_in numbers.now) [] [] (six_rows modules_row.old statements_row.old used.old external.old json.old reason.old) (six_rows modules_row.new statements_row.new used.new external.new json.new reason.new) }
{
    bit_row::clear(modules_row, row_bytes(numbers, tables, Row::Modules));
    bit_row::clear(statements_row, row_bytes(numbers, tables, Row::Statements));
    let symbols = row_bytes(numbers, tables, Row::Used);
    bit_row::clear(used, symbols);
    bit_row::clear(external, symbols);
    bit_row::clear(json, symbols);
    bit_row::clear(reason, row_bytes(numbers, tables, Row::NamespaceReason));
}

// Writes the six answer rows of a record of `total` lines, of which the first `main` are those of the main part. Each line is read once.
pub fn show_all(
    numbers: &[u32],
    tables: &[usize],
    lines: &[u32],
    main: usize,
    total: usize,
    modules_row: &mut [u8],
    statements_row: &mut [u8],
    used: &mut [u8],
    external: &mut [u8],
    json: &mut [u8],
    reason: &mut [u8],
)
    requires prepared { Prepared numbers.now tables.now × FirstBytes numbers.now tables.now }
    requires reason_value { rows_enough (graph_in numbers.now) (lengths_of (six_rows modules_row.old statements_row.old used.old external.old json.old reason.old)) ≡ true }
    requires main_le_total { (main ≤ total) × (6 * total ≤ length lines.now) × ((k : ℕ) → k < total → Good (graph_in numbers.now) (line_at lines.now k).fact) }
    ensures { RowsShown (graph_in numbers.now) (lines_of main lines.now) (lines_of total lines.now) (six_rows modules_row.old statements_row.old used.old external.old json.old reason.old) (six_rows modules_row.new statements_row.new used.new external.new json.new reason.new) }
{
    clear_rows(
        numbers,
        tables,
        modules_row,
        statements_row,
        used,
        external,
        json,
        reason,
    );
    show_lines(
        numbers,
        tables,
        lines,
        0,
        main,
        true,
        modules_row,
        statements_row,
        used,
        external,
        json,
        reason,
    );
    show_lines(
        numbers,
        tables,
        lines,
        main,
        total,
        false,
        modules_row,
        statements_row,
        used,
        external,
        json,
        reason,
    );
}
