// The starts of a drain: triples of a kind and two parts, and what is wrong with them.
#![tactic(auto)]

ghost use Rattle.std.specs.Prelude.{◌≡◌, ℕ, ◌+◌, ◌*◌, ◌-◌, ◌/◌, ◌%◌, ◌<◌, ◌≤◌, Bool, true, false, length, get_or};
ghost use Rattle.determine_side_effects.specs.graph_tables_crate.Tables.{header_in};
ghost use Rattle.determine_side_effects.specs.graph_crate.Check.{graph_in, OnceRead};
ghost use Rattle.determine_side_effects.specs.graph_crate.Loaded.{Loaded};
ghost use Rattle.starts.specs.Starts.{unused_fault, is_normal_index, start_fault as start_fault_of, starts_fault, starts_walk, starts_of, StartsGood};

use determine_side_effects::graph_access_crate::modules;
use determine_side_effects::index_crate::ModuleIdx;
use determine_side_effects::refusal_crate::Refusal;

// Whether a module's index is one of a normal module.
fn is_normal_index(numbers: &[u32], tables: &[usize], m: usize) -> bool
    requires { Loaded numbers.now tables.now }
    ensures { result ≡ is_normal_index (graph_in numbers.now) m }
{
    let h = determine_side_effects::graph_crate::header_of(numbers);
    if m >= h.modules {
        return false;
    }
    modules::is_normal(numbers, tables, ModuleIdx(m))
}

// The faulty number of a start of a statement's kind, counted from 1, or 0.
fn statement_fault(numbers: &[u32], tables: &[usize], a: usize, b: usize) -> usize
    requires { Loaded numbers.now tables.now }
    ensures { result ≡ start_fault_of (graph_in numbers.now) 2 a b }
{
    if !is_normal_index(numbers, tables, a) {
        return 2;
    }
    if b < modules::statement_count(numbers, tables, ModuleIdx(a)) {
        return 0;
    }
    3
}

// Of a use's kind.
fn use_fault(numbers: &[u32], tables: &[usize], a: usize, b: usize) -> usize
    requires { Loaded numbers.now tables.now }
    ensures { (result ≡ start_fault_of (graph_in numbers.now) 3 a b) × (result ≡ start_fault_of (graph_in numbers.now) 4 a b) }
{
    let h = determine_side_effects::graph_crate::header_of(numbers);
    if a >= h.symbols {
        return 2;
    }
    if b == 0 {
        return 3;
    }
    if b < 32 {
        return 0;
    }
    3
}

// Of a kind whose second part is not used.
fn unused_fault(b: usize) -> usize
    ensures { result ≡ unused_fault b }
{
    if b == 0 {
        return 0;
    }
    3
}

// The faulty number of a start, counted from 1, or 0.
pub fn start_fault(numbers: &[u32], tables: &[usize], kind: usize, a: usize, b: usize) -> usize
    requires { Loaded numbers.now tables.now }
    ensures { result ≡ start_fault_of (graph_in numbers.now) kind a b }
{
    if kind == 1 {
        if is_normal_index(numbers, tables, a) {
            return unused_fault(b);
        }
        return 2;
    }
    if kind == 2 {
        return statement_fault(numbers, tables, a, b);
    }
    if kind == 3 {
        return use_fault(numbers, tables, a, b);
    }
    if kind == 4 {
        return use_fault(numbers, tables, a, b);
    }
    if kind == 6 {
        let h = determine_side_effects::graph_crate::header_of(numbers);
        if a < h.modules {
            return unused_fault(b);
        }
        return 2;
    }
    1
}

// Whether the starts are triples of facts, or the first fault.
pub fn check(numbers: &[u32], tables: &[usize], starts: &[u32]) -> Result<usize, Refusal>
    requires { Loaded numbers.now tables.now }
    ensures { (result ≡ starts_walk (graph_in numbers.now) starts.now) × OnceRead result (StartsGood (graph_in numbers.now) (starts_of starts.now)) }
{
    if starts.len() % 3 != 0 {
        return Err(Refusal::WrongLength(starts.len()));
    }
    let triples = starts.len() / 3;
    for i in 0..triples {
        let p = 3 * i;
        let fault = start_fault(
            numbers,
            tables,
            determine_side_effects::rows_crate::wide(starts[p]),
            determine_side_effects::rows_crate::wide(starts[p + 1]),
            determine_side_effects::rows_crate::wide(starts[p + 2]),
        );
        if fault != 0 {
            return Err(Refusal::OutOfRange(p + fault - 1));
        }
    }
    Ok(0)
}
