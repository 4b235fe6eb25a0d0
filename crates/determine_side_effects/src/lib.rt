// Which modules have side effects (determine_side_effects.rs).
#![tactic(auto)]

ghost use Rattle.std.specs.Prelude.{◌≡◌, ℕ, ◌+◌, ◌-◌, ◌<◌, ◌≤◌, List, [], ◌∷◌, ◌++◌, Bool, true, false, length, get_or, drop};
ghost use Rattle.facts.specs.tables_crate.Layout.{start_of, Laid, Kept, verdicts_in, at_verdicts, at_on_demand};
ghost use Rattle.facts.specs.graph_tables_crate.Tables.{header_in};
ghost use Rattle.facts.specs.graph_crate.Check.{graph_in, check_of, answer_of, OnceAccepted, HeaderRead};
ghost use Rattle.facts.specs.graph_crate.Loaded.{Loaded};
ghost use Rattle.facts.specs.graph_access_crate.Names.{import_records};
ghost use Rattle.facts.specs.graph_access_crate.Words.{module_of, statement_list};
ghost use Rattle.determine_side_effects.specs.Effects.{effectful as effectful_of, seeds as seeds_of, reaches as reaches_of, moves as moves_of, pass as pass_of, settle as settle_of, relaxed as relaxed_of, rescanned as rescanned_of, recomputed as recomputed_of, first_verdict, first_verdicts, last_verdicts, has_effects};
ghost use Rattle.determine_side_effects.specs.Operation.{effects_answer, effects_row};
ghost use Rattle.determine_side_effects.specs.Tabled.{HasVerdicts, Settled};

// The crates below, for the crates above, which list this one alone.
pub use facts as facts_crate;
use facts::graph_access_crate::modules::{DYNAMIC_EXPORTS, IS_EXPORT_STAR, RELAXED};
use facts::graph_access_crate::statements::UNKNOWN_SIDE_EFFECT;
use facts::graph_access_crate::{modules, statements};
use facts::graph_format_crate::Header;
use facts::index_crate::{ImportRecordIdx, ModuleIdx, StmtIdx};
use facts::refusal_crate::Refusal;
use facts::tables_crate::{LARGE, LARGEST, MIDDLE, SMALL, Size, VERDICTS};
pub use facts::{
    graph_access_crate, graph_crate, graph_entries_crate, graph_format_crate, graph_tables_crate,
    index_crate, refusal_crate, rows_crate, tables_crate,
};

// Whether a verdict is one of effects.
fn effectful(v: usize) -> bool
    ensures { result ≡ effectful_of v }
{
    if v == 1 {
        return true;
    }
    if v == 3 {
        return true;
    }
    v == 4
}

// The last verdict of a module.
pub fn verdict(numbers: &[u32], tables: &[usize], m: ModuleIdx) -> usize
    requires settled { Settled numbers.now tables.now }
    requires m_bound { m.0 < (header_in numbers.now).modules }
    ensures { result ≡ get_or (last_verdicts (graph_in numbers.now)) m.0 0 }
{
    let verdicts = facts::tables_crate::section(tables, VERDICTS);
    let i = m.0;
    verdicts[i]
}

// Whether a module has effects.
pub fn has_effects(numbers: &[u32], tables: &[usize], m: ModuleIdx) -> bool
    requires settled { Settled numbers.now tables.now }
    requires m_bound { m.0 < (header_in numbers.now).modules }
    ensures { result ≡ has_effects (last_verdicts (graph_in numbers.now)) m.0 }
{
    effectful(verdict(numbers, tables, m))
}

// Whether import record k of a module re-exports all of a module that is wrapped or has dynamic exports.
fn seeds(numbers: &[u32], tables: &[usize], m: ModuleIdx, k: ImportRecordIdx) -> bool
    requires loaded { Loaded numbers.now tables.now }
    requires m_bound { (m.0 < (header_in numbers.now).modules) × (k.0 < length (import_records (module_of (graph_in numbers.now) m.0))) }
    ensures { result ≡ seeds_of (graph_in numbers.now) (get_or (import_records (module_of (graph_in numbers.now) m.0)) k.0 []) }
{
    let target = modules::import_record_target(numbers, tables, m, k);
    if target == 0 {
        return false;
    }
    if modules::import_record_kind(numbers, tables, m, k) != 0 {
        return false;
    }
    if !facts::flag(
        modules::import_record_bits(numbers, tables, m, k),
        IS_EXPORT_STAR,
    ) {
        return false;
    }
    let t = ModuleIdx(target - 1);
    if !modules::is_normal(numbers, tables, t) {
        return false;
    }
    if modules::wrap(numbers, tables, t) != 0 {
        return true;
    }
    facts::flag(modules::flags(numbers, tables, t), DYNAMIC_EXPORTS)
}

// Whether import record k of a module is resolved to a module with effects, by the verdicts so far.
fn reaches(numbers: &[u32], tables: &[usize], m: ModuleIdx, k: ImportRecordIdx) -> bool
    requires has_verdicts { HasVerdicts numbers.now tables.now }
    requires m_bound { (m.0 < (header_in numbers.now).modules) × (k.0 < length (import_records (module_of (graph_in numbers.now) m.0))) }
    ensures { result ≡ reaches_of (verdicts_in tables.now) (get_or (import_records (module_of (graph_in numbers.now) m.0)) k.0 []) }
{
    let target = modules::import_record_target(numbers, tables, m, k);
    if target == 0 {
        return false;
    }
    let verdicts = facts::tables_crate::section(tables, VERDICTS);
    effectful(verdicts[target - 1])
}

// Whether a module moves: it is normal and Analyzed(false), and one of its import records seeds it or reaches effects.
fn moves(numbers: &[u32], tables: &[usize], m: ModuleIdx) -> bool
    requires has_verdicts { HasVerdicts numbers.now tables.now }
    requires m_bound { m.0 < (header_in numbers.now).modules }
    ensures { result ≡ moves_of (graph_in numbers.now) (verdicts_in tables.now) m.0 }
{
    if !modules::is_normal(numbers, tables, m) {
        return false;
    }
    let verdicts = facts::tables_crate::section(tables, VERDICTS);
    let i = m.0;
    if verdicts[i] != 0 {
        return false;
    }
    let count = modules::import_record_count(numbers, tables, m);
    for k in 0..count {
        if seeds(numbers, tables, m, ImportRecordIdx(k)) {
            return true;
        }
        if reaches(numbers, tables, m, ImportRecordIdx(k)) {
            return true;
        }
    }
    false
}

// Every module once, the last first. Whether one moved.
fn pass(numbers: &[u32], tables: &mut [usize]) -> bool
    requires { HasVerdicts numbers.now tables.old }
    ensures { (verdicts_in tables.new ≡ pass_of (graph_in numbers.now) (header_in numbers.now).modules (verdicts_in tables.old)) × (result ≡ false → verdicts_in tables.new ≡ verdicts_in tables.old) × Kept (start_of (header_in numbers.now) at_verdicts) tables.old tables.new }
{
    let h = facts::graph_crate::header_of(numbers);
    let base = tables[VERDICTS];
    let mut moved = false;
    let mut m = h.modules;
    while m > 0 {
        m -= 1;
        if moves(numbers, tables, ModuleIdx(m)) {
            tables[base + m] = 1;
            moved = true;
        }
    }
    moved
}

// Passes until nothing moves.
fn settle(numbers: &[u32], tables: &mut [usize])
    requires { HasVerdicts numbers.now tables.old }
    ensures { (verdicts_in tables.new ≡ settle_of (graph_in numbers.now) (verdicts_in tables.old)) × Kept (start_of (header_in numbers.now) at_verdicts) tables.old tables.new }
{
    let h = facts::graph_crate::header_of(numbers);
    let mut left = h.modules;
    while left > 0 {
        left -= 1;
        if !pass(numbers, tables) {
            return;
        }
    }
}

// Whether some module was relaxed.
fn relaxed(numbers: &[u32], tables: &[usize]) -> bool
    requires { Loaded numbers.now tables.now }
    ensures { result ≡ relaxed_of (graph_in numbers.now) }
{
    let h = facts::graph_crate::header_of(numbers);
    for m in 0..h.modules {
        if facts::flag(modules::flags(numbers, tables, ModuleIdx(m)), RELAXED) {
            return true;
        }
    }
    false
}

// The verdict of a relaxed module by its statements at scan time.
fn rescanned(numbers: &[u32], tables: &[usize], m: ModuleIdx) -> usize
    requires loaded { Loaded numbers.now tables.now }
    requires m_bound { m.0 < (header_in numbers.now).modules }
    ensures { result ≡ rescanned_of (graph_in numbers.now) m.0 }
{
    let all = modules::statement_count(numbers, tables, m);
    let scanned = modules::scan_statement_count(numbers, tables, m);
    for i in 0..all {
        if i >= scanned {
            return 0;
        }
        if facts::flag(
            statements::bits(numbers, tables, m, StmtIdx(i)),
            UNKNOWN_SIDE_EFFECT,
        ) {
            return 1;
        }
    }
    0
}

// A module's verdict after the recomputation.
fn recomputed(numbers: &[u32], tables: &[usize], m: ModuleIdx) -> usize
    requires loaded { Loaded numbers.now tables.now }
    requires m_bound { m.0 < (header_in numbers.now).modules }
    ensures { result ≡ recomputed_of (graph_in numbers.now) m.0 }
{
    if !modules::is_normal(numbers, tables, m) {
        return modules::effects(numbers, tables, m);
    }
    let scan = modules::scan_effects(numbers, tables, m);
    if scan != 1 {
        return scan;
    }
    if facts::flag(modules::flags(numbers, tables, m), RELAXED) {
        return rescanned(numbers, tables, m);
    }
    1
}

// A module's verdict before the settling: as it was given, or recomputed.
fn first_verdict(numbers: &[u32], tables: &[usize], again: bool, m: ModuleIdx) -> usize
    requires loaded { Loaded numbers.now tables.now }
    requires again_value { (again ≡ relaxed_of (graph_in numbers.now)) × (m.0 < (header_in numbers.now).modules) }
    ensures { result ≡ first_verdict (graph_in numbers.now) m.0 }
{
    if again {
        return recomputed(numbers, tables, m);
    }
    modules::effects(numbers, tables, m)
}

// The verdicts before the settling: as they were given, or recomputed.
fn first_verdicts(numbers: &[u32], tables: &mut [usize])
    requires { HasVerdicts numbers.now tables.old }
    ensures { (verdicts_in tables.new ≡ first_verdicts (graph_in numbers.now)) × Kept (start_of (header_in numbers.now) at_verdicts) tables.old tables.new }
{
    let h = facts::graph_crate::header_of(numbers);
    let again = relaxed(numbers, tables);
    let base = tables[VERDICTS];
    for m in 0..h.modules {
        tables[base + m] = first_verdict(numbers, tables, again, ModuleIdx(m));
    }
}

// The last verdicts, in their section.
pub fn last_verdicts(numbers: &[u32], tables: &mut [usize])
    requires { HasVerdicts numbers.now tables.old }
    ensures { (verdicts_in tables.new ≡ last_verdicts (graph_in numbers.now)) × Kept (start_of (header_in numbers.now) at_verdicts) tables.old tables.new }
{
    first_verdicts(numbers, tables);
    settle(numbers, tables);
}

// Writes the last verdicts into a row.
fn write_row(numbers: &[u32], tables: &[usize], row: &mut [u32])
    requires has_verdicts { HasVerdicts numbers.now tables.now × (verdicts_in tables.now ≡ last_verdicts (graph_in numbers.now)) }
    requires numbers_in_bounds { (header_in numbers.now).modules ≤ length row.old }
    ensures { row.new ≡ last_verdicts (graph_in numbers.now) ++ drop (header_in numbers.now).modules row.old }
{
    let verdicts = facts::tables_crate::section(tables, VERDICTS);
    let count = verdicts.len();
    for m in 0..count {
        row[m] = facts::narrow(verdicts[m]);
    }
}

// The operation with tables that hold a graph of the header's counts.
fn effects_in(
    numbers: &[u32],
    h: Header,
    tables: &mut [usize],
    row: &mut [u32],
) -> Result<(), Refusal>
    requires header_read { HeaderRead numbers.now h }
    requires at_on_demand_in_bounds { (start_of h at_on_demand ≤ length tables.old) × (length tables.old < 4294967296) }
    ensures { (result ≡ effects_answer numbers.now (length row.old)) × (row.new ≡ effects_row numbers.now row.old) }
{
    facts::graph_crate::load(numbers, h, tables)?;
    if row.len() < h.modules {
        return Err(Refusal::NoRoom);
    }
    last_verdicts(numbers, tables);
    write_row(numbers, tables, row);
    Ok(())
}

// The operation with tables of N words.
fn effects_with<const N: usize>(numbers: &[u32], h: Header, row: &mut [u32]) -> Result<(), Refusal>
    requires header_read { HeaderRead numbers.now h }
    requires room { (start_of h at_on_demand ≤ N) × (N < 4294967296) }
    ensures { (result ≡ effects_answer numbers.now (length row.old)) × (row.new ≡ effects_row numbers.now row.old) }
{
    let mut tables = [0usize; N];
    effects_in(numbers, h, &mut tables, row)
}

// The operation with tables for a larger graph, by its size. `again` is 0 (`frames::apart`).
fn effects_larger(numbers: &[u32], h: Header, row: &mut [u32], again: usize) -> Result<(), Refusal>
    requires { HeaderRead numbers.now h }
    ensures { (result ≡ effects_answer numbers.now (length row.old)) × (row.new ≡ effects_row numbers.now row.old) }
{
    if again > 0 {
        return effects_larger(numbers, h, row, again - 1);
    }
    if facts::tables_crate::fits(h, Size::Middle) {
        return effects_with::<MIDDLE>(numbers, h, row);
    }
    if facts::tables_crate::fits(h, Size::Large) {
        return effects_with::<LARGE>(numbers, h, row);
    }
    effects_with::<LARGEST>(numbers, h, row)
}

// The verdicts of the modules of a graph, in a lent row.
pub fn effects(numbers: &[u32], row: &mut [u32]) -> Result<(), Refusal>
    ensures { (result ≡ effects_answer numbers.now (length row.old)) × (row.new ≡ effects_row numbers.now row.old) }
{
    facts::graph_crate::header(numbers)?;
    let h = facts::graph_crate::header_of(numbers);
    if facts::tables_crate::fits(h, Size::Small) {
        return effects_with::<SMALL>(numbers, h, row);
    }
    effects_larger(numbers, h, row, frames::apart(numbers))
}
