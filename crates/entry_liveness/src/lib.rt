// Whether a dynamic entry is alive (dynamic_entries.rs, `is_dynamic_entry_alive`).
#![tactic(auto)]

ghost use Rattle.std.specs.Prelude.{◌≡◌, ℕ, ◌+◌, ◌*◌, ◌<◌, ◌≤◌, List, [], length, get_or};
ghost use Rattle.determine_side_effects.specs.graph_tables_crate.Tables.{header_in};
ghost use Rattle.determine_side_effects.specs.graph_crate.Check.{graph_in};
ghost use Rattle.determine_side_effects.specs.graph_access_crate.Names.{related};
ghost use Rattle.determine_side_effects.specs.graph_access_crate.Words.{entry_of};
ghost use Rattle.determine_side_effects.specs.facts_crate.Facts.{mark_count};
ghost use Rattle.determine_side_effects.specs.Effects.{last_verdicts};
ghost use Rattle.keep_rules.specs.Prepared.{Prepared};
ghost use Rattle.marked.specs.Marked.{marked};
ghost use Rattle.entry_order.specs.Order.{module_of_entry};
ghost use Rattle.dynamic_entries.specs.Alive.{uses_no_export, is_pure, lets_live};
ghost use Rattle.dynamic_entries.specs.Tries.{Planned, PassedOver};

use determine_side_effects::facts_crate::Fact;
use determine_side_effects::graph_access_crate::entries::RelatedStmt;
use determine_side_effects::graph_access_crate::modules::{
    DYNAMIC_IMPORTS_USE_NO_EXPORT, TOP_LEVEL_PURE_DYNAMIC_IMPORT,
};
use determine_side_effects::graph_access_crate::{entries, modules};
use determine_side_effects::index_crate::{EntryIdx, ModuleIdx};

// Whether the import of a related statement is pure, and of a module without effects.
pub fn is_pure(numbers: &[u32], tables: &[usize], e: EntryIdx, k: usize) -> bool
    requires prepared { Prepared numbers.now tables.now }
    requires e_bound { (e.0 < (header_in numbers.now).entries) × (k < length (related (entry_of (graph_in numbers.now) e.0))) }
    ensures { result ≡ is_pure (graph_in numbers.now) (last_verdicts (graph_in numbers.now)) (get_or (related (entry_of (graph_in numbers.now) e.0)) k []) }
{
    let r = entries::related_statement(numbers, tables, e, k);
    let target = modules::import_record_target(numbers, tables, r.module, r.import_record);
    if determine_side_effects::has_effects(numbers, tables, ModuleIdx(target - 1)) {
        return false;
    }
    determine_side_effects::facts_crate::flag(
        modules::import_record_bits(numbers, tables, r.module, r.import_record),
        TOP_LEVEL_PURE_DYNAMIC_IMPORT,
    )
}

// Whether related statement k lets an entry live; `unused` says that its module's dynamic imports use no export.
fn lets_live(
    numbers: &[u32],
    tables: &[usize],
    marks: &[u8],
    e: EntryIdx,
    k: usize,
    unused: bool,
) -> bool
    requires prepared { Prepared numbers.now tables.now }
    requires e_bound { (e.0 < (header_in numbers.now).entries) × (k < length (related (entry_of (graph_in numbers.now) e.0))) × (mark_count (graph_in numbers.now) ≤ 8 * length marks.now) }
    requires unused_value { unused ≡ uses_no_export (graph_in numbers.now) (module_of_entry (graph_in numbers.now) e.0) }
    ensures { result ≡ lets_live (graph_in numbers.now) (last_verdicts (graph_in numbers.now)) (marked (graph_in numbers.now) marks.now) (module_of_entry (graph_in numbers.now) e.0) (get_or (related (entry_of (graph_in numbers.now) e.0)) k []) }
{
    let r = entries::related_statement(numbers, tables, e, k);
    if r.unreachable != 0 {
        return false;
    }
    let module = r.module;
    let statement = r.statement;
    if !marked::is_marked(numbers, tables, marks, Fact::Statement(module, statement)) {
        return false;
    }
    if !unused {
        return true;
    }
    !is_pure(numbers, tables, e, k)
}

// The first place of the plan from `from` on whose entry is live now: its module is not yet live as an entry, and it is on a cycle, or a related
// statement lets it live. Those that are found dead on the way are marked so in the plan.
pub fn next_live(
    numbers: &[u32],
    tables: &[usize],
    marks: &[u8],
    plan: &mut [usize],
    users: usize,
    from: usize,
) -> usize
    requires prepared { Prepared numbers.now tables.now }
    requires planned { Planned (graph_in numbers.now) plan.old users × (from ≤ (header_in numbers.now).entries) × (mark_count (graph_in numbers.now) ≤ 8 * length marks.now) }
    ensures { PassedOver (graph_in numbers.now) marks.now plan.old plan.new from result }
{
    let h = determine_side_effects::graph_crate::header_of(numbers);
    let live = entry_order::live_at(h);
    let cycled = entry_order::cycled_at(h);
    let dead = entry_order::dead_at(h);
    let mut first = h.entries;
    'entries: for i in from..h.entries {
        let e = plan[i];
        let m = entries::entry_module(numbers, tables, EntryIdx(e));
        let u = m.0;
        if plan[live + u] != 1 {
            if plan[cycled + u] == 1 {
                first = i;
                break 'entries;
            }
            let unused = determine_side_effects::facts_crate::flag(
                modules::flags(numbers, tables, m),
                DYNAMIC_IMPORTS_USE_NO_EXPORT,
            );
            let related = entries::related_count(numbers, tables, EntryIdx(e));
            for k in 0..related {
                if lets_live(numbers, tables, marks, EntryIdx(e), k, unused) {
                    first = i;
                    break 'entries;
                }
            }
            plan[dead + e] = 1;
        }
    }
    first
}
