// Answer rows that a run has beside those of a drain: helper words and final entries. Dead import records have a crate of their own.
#![tactic(auto)]

ghost use Rattle.std.specs.Prelude.{◌≡◌, ℕ, ◌+◌, ◌<◌, ◌≤◌, ◌||◌, ◌&&◌, ltb, ◌++◌, length, get_or, take, drop};
ghost use Rattle.determine_side_effects.specs.graph_tables_crate.Tables.{header_in};
ghost use Rattle.determine_side_effects.specs.graph_crate.Check.{graph_in};
ghost use Rattle.determine_side_effects.specs.graph_crate.Loaded.{Loaded};
ghost use Rattle.determine_side_effects.specs.graph_access_crate.Words.{tabulate};
ghost use Rattle.entry_order.specs.Order.{grouped, module_of_entry};
ghost use Rattle.entry_order.specs.Chains.{Entries};
ghost use Rattle.entry_order.specs.Plan.{live_in, words_at, plan_size};
ghost use Rattle.dynamic_entries.specs.Tries.{Planned};
ghost use Rattle.tree_shaking.specs.Rounds.{final_entries};
ghost use Rattle.run_rows.specs.Run.{entries_row};

use determine_side_effects::graph_access_crate::entries;
use determine_side_effects::index_crate::EntryIdx;

// The bit of the options that turns splitting off.
const SPLITTING_OFF: usize = 5;

// Writes the row of helper words, from the plan.
pub fn show_helpers(numbers: &[u32], plan: &[usize], words: &mut [u32])
    requires in_bounds { (7 ≤ length numbers.now) × (plan_size (header_in numbers.now) ≤ length plan.now) × ((header_in numbers.now).modules ≤ length words.old) }
    requires by_index { (m : ℕ) → m < (header_in numbers.now).modules → get_or plan.now (words_at (header_in numbers.now) + m) 0 < 4294967296 }
    ensures { words.new ≡ tabulate (λ m. get_or plan.now (words_at (header_in numbers.now) + m) 0) 0 (header_in numbers.now).modules ++ drop (header_in numbers.now).modules words.old }
{
    let h = determine_side_effects::graph_crate::header_of(numbers);
    let at = entry_order::words_at(h);
    for m in 0..h.modules {
        words[m] = determine_side_effects::facts_crate::narrow(plan[at + m]);
    }
}

// Whether the entry at place i of the plan is final: a user-defined one, or a live dynamic one unless splitting is off.
fn is_final(
    numbers: &[u32],
    tables: &[usize],
    plan: &[usize],
    users: usize,
    splits: bool,
    i: usize,
) -> bool
    requires loaded { Loaded numbers.now tables.now }
    requires numbers_in_bounds { (plan_size (header_in numbers.now) ≤ length plan.now) × (i < (header_in numbers.now).entries) × (get_or plan.now i 0 < (header_in numbers.now).entries) }
    ensures { result ≡ (ltb i users || (splits && live_in (header_in numbers.now) plan.now (module_of_entry (graph_in numbers.now) (get_or plan.now i 0)))) }
{
    if i < users {
        return true;
    }
    if !splits {
        return false;
    }
    let h = determine_side_effects::graph_crate::header_of(numbers);
    let m = entries::entry_module(numbers, tables, EntryIdx(plan[i]));
    let u = m.0;
    let live = entry_order::live_at(h);
    plan[live + u] == 1
}

// Brings the final entries of the plan to its front. Gives how many there are.
fn keep_final(numbers: &[u32], tables: &[usize], plan: &mut [usize], users: usize) -> usize
    requires loaded { Loaded numbers.now tables.now }
    requires planned { Planned (graph_in numbers.now) plan.old users }
    ensures plan_after { grouped (module_of_entry (graph_in numbers.now)) (take result plan.new) ≡ final_entries (graph_in numbers.now) (live_in (header_in numbers.now) plan.old) }
    ensures upper_bound { (result ≤ (header_in numbers.now).entries) × Entries (graph_in numbers.now) plan.new result }
{
    let h = determine_side_effects::graph_crate::header_of(numbers);
    let splits = !determine_side_effects::facts_crate::flag(h.options, SPLITTING_OFF);
    let mut n: usize = 0;
    for i in 0..h.entries {
        if is_final(numbers, tables, plan, users, splits, i) {
            plan[n] = plan[i];
            n += 1;
        }
    }
    n
}

// Writes the row of final entries, grouped by module. The order in the plan is used up. Gives how many there are.
pub fn show_entries(
    numbers: &[u32],
    tables: &[usize],
    plan: &mut [usize],
    users: usize,
    chain: &mut [usize],
    row: &mut [u32],
) -> usize
    requires loaded { Loaded numbers.now tables.now }
    requires planned { Planned (graph_in numbers.now) plan.old users }
    requires numbers_in_bounds { ((header_in numbers.now).modules + (header_in numbers.now).entries ≤ length chain.old) × ((header_in numbers.now).entries ≤ length row.old) }
    ensures { (result ≡ length (final_entries (graph_in numbers.now) (live_in (header_in numbers.now) plan.old))) × (row.new ≡ entries_row (graph_in numbers.now) (live_in (header_in numbers.now) plan.old) row.old) }
{
    let n = keep_final(numbers, tables, plan, users);
    entry_order::group(numbers, tables, plan, n, chain, row);
    n
}
