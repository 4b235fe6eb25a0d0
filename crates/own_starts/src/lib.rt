// A run's own starts, noted as triples, each once: what entries and bailouts start, beside `entry_starts` and `passes`, which start it. They are worked
// out by kind from what the main part of a run leaves.
#![tactic(auto)]

ghost use Rattle.std.specs.Prelude.{◌≡◌, ℕ, ◌+◌, ◌*◌, ◌<◌, ◌≤◌, List, [], ◌∷◌, length};
ghost use Rattle.facts.specs.graph_tables_crate.Tables.{header_in};
ghost use Rattle.facts.specs.graph_crate.Check.{graph_in};
ghost use Rattle.facts.specs.graph_access_crate.Names.{resolved_exports};
ghost use Rattle.facts.specs.graph_access_crate.Words.{module_of};
ghost use Rattle.facts.specs.Facts.{Good, first_part, second_part};
ghost use Rattle.keep_rules.specs.Prepared.{Prepared};
ghost use Rattle.keep_record.specs.Held.{line_at, lines_of};
ghost use Rattle.entry_order.specs.Order.{user_entries};
ghost use Rattle.entry_order.specs.Plan.{plan_size, live_in};
ghost use Rattle.entry_starts.specs.Starts.{declared, reference_starts, module_starts, user_starts};
ghost use Rattle.dynamic_entries.specs.Tries.{Planned};
ghost use Rattle.passes.specs.Bailouts.{export_starts, bailouts_starts};
ghost use Rattle.tree_shaking.specs.Rounds.{users_starts};
ghost use Rattle.tree_shaking.specs.Own.{live_starts, starts_by_kind};
ghost use Rattle.own_starts.specs.Noting.{Noted, Notes, Writes};

use facts::graph_access_crate::{entries, modules, symbols};
use facts::index_crate::{EntryIdx, ModuleIdx, SymbolIdx};
use facts::{Fact, Reason};
use marked::is_marked;
use tree_shaking::Reached;

// Writes triple n of a row, if the row has it.
fn write_triple(out: &mut [u32], n: usize, fact: Fact)
    requires { (n < 4294967296) × (first_part fact < 4294967296) × (second_part fact < 4294967296) }
    ensures { Writes fact n out.old out.new }
{
    let p = 3 * n;
    if out.len() < p + 3 {
        return;
    }
    out[p] = facts::narrow(facts::kind_of(fact));
    out[p + 1] = facts::narrow(facts::first_part(fact));
    out[p + 2] = facts::narrow(facts::second_part(fact));
}

// Notes a start, unless it is noted: marks it and writes its triple. Gives how many are noted.
fn note(
    numbers: &[u32],
    tables: &[usize],
    seen: &mut [u8],
    out: &mut [u32],
    n: usize,
    fact: Fact,
) -> usize
    requires prepared { Prepared numbers.now tables.now }
    requires noted { Noted (graph_in numbers.now) seen.old out.old n }
    requires good { Good (graph_in numbers.now) fact }
    ensures { Notes (graph_in numbers.now) (fact ∷ []) seen.old out.old n seen.new out.new result }
{
    if is_marked(numbers, tables, seen, fact) {
        return n;
    }
    fact_marks::mark(numbers, tables, seen, fact);
    write_triple(out, n, fact);
    n + 1
}

// Notes the statements that declare a symbol.
fn note_declaring_statements(
    numbers: &[u32],
    tables: &[usize],
    seen: &mut [u8],
    out: &mut [u32],
    n: usize,
    s: SymbolIdx,
) -> usize
    requires prepared { Prepared numbers.now tables.now }
    requires noted { Noted (graph_in numbers.now) seen.old out.old n }
    requires s_bound { s.0 < (header_in numbers.now).symbols }
    ensures { Notes (graph_in numbers.now) (declared (graph_in numbers.now) s.0) seen.old out.old n seen.new out.new result }
{
    let owner = symbols::owner(numbers, tables, s);
    let declaring = symbols::declaring_count(numbers, tables, s);
    let mut total = n;
    for i in 0..declaring {
        let fact = Fact::Statement(owner, symbols::declaring(numbers, tables, s, i));
        total = note(numbers, tables, seen, out, total, fact);
    }
    total
}

// Notes what an entry reference starts.
fn note_reference(
    numbers: &[u32],
    tables: &[usize],
    seen: &mut [u8],
    out: &mut [u32],
    n: usize,
    s: SymbolIdx,
) -> usize
    requires prepared { Prepared numbers.now tables.now }
    requires noted { Noted (graph_in numbers.now) seen.old out.old n }
    requires s_bound { s.0 < (header_in numbers.now).symbols }
    ensures { Notes (graph_in numbers.now) (reference_starts (graph_in numbers.now) s.0) seen.old out.old n seen.new out.new result }
{
    let owner = symbols::owner(numbers, tables, s);
    if !modules::is_normal(numbers, tables, owner) {
        return n;
    }
    let total = note_declaring_statements(numbers, tables, seen, out, n, s);
    note(
        numbers,
        tables,
        seen,
        out,
        total,
        Fact::CheckedUse(s, Reason { bits: 2 }),
    )
}

// Notes what a module that is an entry starts.
fn note_entry(
    numbers: &[u32],
    tables: &[usize],
    seen: &mut [u8],
    out: &mut [u32],
    n: usize,
    m: ModuleIdx,
) -> usize
    requires prepared { Prepared numbers.now tables.now }
    requires noted { Noted (graph_in numbers.now) seen.old out.old n }
    requires m_bound { m.0 < (header_in numbers.now).modules }
    ensures { Notes (graph_in numbers.now) (module_starts (graph_in numbers.now) m.0) seen.old out.old n seen.new out.new result }
{
    if !modules::is_normal(numbers, tables, m) {
        return n;
    }
    let references = modules::entry_reference_count(numbers, tables, m);
    let mut total = n;
    for k in 0..references {
        let s = modules::entry_reference(numbers, tables, m, k);
        total = note_reference(numbers, tables, seen, out, total, s);
    }
    note(numbers, tables, seen, out, total, Fact::Module(m))
}

// Notes what a module that is a user-defined entry starts: its bailout first.
fn note_user_entry(
    numbers: &[u32],
    tables: &[usize],
    seen: &mut [u8],
    out: &mut [u32],
    n: usize,
    m: ModuleIdx,
) -> usize
    requires prepared { Prepared numbers.now tables.now }
    requires noted { Noted (graph_in numbers.now) seen.old out.old n }
    requires m_bound { m.0 < (header_in numbers.now).modules }
    ensures { Notes (graph_in numbers.now) (user_starts (graph_in numbers.now) m.0) seen.old out.old n seen.new out.new result }
{
    if !modules::is_normal(numbers, tables, m) {
        return n;
    }
    let total = note(numbers, tables, seen, out, n, Fact::Bailout(m));
    note_entry(numbers, tables, seen, out, total, m)
}

// Notes the uses of the exports from CommonJS of module m.
fn note_cjs_exports(
    numbers: &[u32],
    tables: &[usize],
    seen: &mut [u8],
    out: &mut [u32],
    n: usize,
    m: ModuleIdx,
) -> usize
    requires prepared { Prepared numbers.now tables.now }
    requires noted { Noted (graph_in numbers.now) seen.old out.old n }
    requires m_bound { m.0 < (header_in numbers.now).modules }
    ensures { Notes (graph_in numbers.now) (export_starts (resolved_exports (module_of (graph_in numbers.now) m.0))) seen.old out.old n seen.new out.new result }
{
    let exports = modules::resolved_export_count(numbers, tables, m);
    let mut total = n;
    for k in 0..exports {
        if modules::resolved_export_from_commonjs(numbers, tables, m, k) == 1 {
            let s = modules::resolved_export_symbol(numbers, tables, m, k);
            let fact = Fact::CheckedUse(s, Reason { bits: 1 });
            total = note(numbers, tables, seen, out, total, fact);
        }
    }
    total
}

// Notes what the bailouts of the first `count` lines start.
fn note_cjs_bailout_exports(
    numbers: &[u32],
    tables: &[usize],
    lines: &[u32],
    count: usize,
    seen: &mut [u8],
    out: &mut [u32],
    n: usize,
) -> usize
    requires prepared { Prepared numbers.now tables.now }
    requires noted { Noted (graph_in numbers.now) seen.old out.old n }
    requires count_in_bounds { (6 * count ≤ length lines.now) × ((k : ℕ) → k < count → Good (graph_in numbers.now) (line_at lines.now k).fact) }
    ensures { Notes (graph_in numbers.now) (bailouts_starts (graph_in numbers.now) (lines_of count lines.now)) seen.old out.old n seen.new out.new result }
{
    let mut total = n;
    for k in 0..count {
        let fact = keep_record::fact_at(lines, k);
        if facts::kind_of(fact) == 6 {
            let m = ModuleIdx(facts::first_part(fact));
            total = note_cjs_exports(numbers, tables, seen, out, total, m);
        }
    }
    total
}

// Notes what the user-defined entries start, in their order.
fn note_user_entries(
    numbers: &[u32],
    tables: &[usize],
    plan: &[usize],
    users: usize,
    seen: &mut [u8],
    out: &mut [u32],
) -> usize
    requires prepared { Prepared numbers.now tables.now }
    requires noted { Noted (graph_in numbers.now) seen.old out.old 0 × Planned (graph_in numbers.now) plan.now users }
    ensures { Notes (graph_in numbers.now) (users_starts (graph_in numbers.now) (user_entries (graph_in numbers.now))) seen.old out.old 0 seen.new out.new result }
{
    let mut total: usize = 0;
    for i in 0..users {
        let m = entries::entry_module(numbers, tables, EntryIdx(plan[i]));
        total = note_user_entry(numbers, tables, seen, out, total, m);
    }
    total
}

// Notes what live modules start, by module.
fn note_live_modules(
    numbers: &[u32],
    tables: &[usize],
    plan: &[usize],
    seen: &mut [u8],
    out: &mut [u32],
    n: usize,
) -> usize
    requires prepared { Prepared numbers.now tables.now }
    requires noted { Noted (graph_in numbers.now) seen.old out.old n × (plan_size (header_in numbers.now) ≤ length plan.now) }
    ensures { Notes (graph_in numbers.now) (live_starts (graph_in numbers.now) (live_in (header_in numbers.now) plan.now) 0 (header_in numbers.now).modules) seen.old out.old n seen.new out.new result }
{
    let h = facts::graph_crate::header_of(numbers);
    let live = entry_order::live_at(h);
    let mut total = n;
    for m in 0..h.modules {
        if plan[live + m] == 1 {
            total = note_entry(numbers, tables, seen, out, total, ModuleIdx(m));
        }
    }
    total
}

// Notes all of a run's own starts from what its main part leaves: plan and record, and what it has reached. Gives how many there are.
pub fn note_all(
    numbers: &[u32],
    tables: &[usize],
    plan: &[usize],
    lines: &[u32],
    reached: Reached,
    seen: &mut [u8],
    out: &mut [u32],
) -> usize
    requires prepared { Prepared numbers.now tables.now }
    requires noted { Noted (graph_in numbers.now) seen.old out.old 0 × Planned (graph_in numbers.now) plan.now reached.users }
    requires taken_in_bounds { (6 * reached.taken ≤ length lines.now) × ((k : ℕ) → k < reached.taken → Good (graph_in numbers.now) (line_at lines.now k).fact) }
    ensures { Notes (graph_in numbers.now) (starts_by_kind (graph_in numbers.now) (live_in (header_in numbers.now) plan.now) (lines_of reached.taken lines.now)) seen.old out.old 0 seen.new out.new result }
{
    let users = note_user_entries(numbers, tables, plan, reached.users, seen, out);
    let bailouts = note_cjs_bailout_exports(
        numbers,
        tables,
        lines,
        reached.taken,
        seen,
        out,
        users,
    );
    note_live_modules(numbers, tables, plan, seen, out, bailouts)
}
