// Where the lists of modules and symbols stand, by number.
// A list is reached from the first one on, at most nine steps; a stage that often reads one list of a module should keep the list's place.
ghost use Rattle.std.specs.Prelude.{◌≡◌, ℕ, ◌+◌, ◌*◌, ◌<◌, ◌≤◌, List, [], ◌∷◌, length, get_or};
ghost use Rattle.graph.specs.rows_crate.Walk.{no_item};
ghost use Rattle.graph.specs.graph_tables_crate.Tables.{header_in, modules_in, symbols_in};
ghost use Rattle.graph.specs.graph_tables_crate.Places.{ModuleTable, SymbolTable};
ghost use Rattle.graph_access.specs.Lists.{place_of, Inside, module_widths, symbol_widths};

// The place of list j, where the first stands at `at`.
fn list_place(numbers: &[u32], at: usize, widths: &[usize], j: usize) -> usize
    requires { Inside numbers.now at widths.now j }
    ensures { result ≡ place_of numbers.now at widths.now j }
{
    let mut p = at;
    for i in 0..j {
        p = p + 1 + widths[i] * graph::rows_crate::wide(numbers[p]);
    }
    p
}

// The place of list j of module m.
fn module_list(numbers: &[u32], modules: &[usize], m: usize, j: usize) -> usize
    requires module_table { ModuleTable numbers.now modules.now }
    requires m_bound { (m < (header_in numbers.now).modules) × (j < 10) }
    ensures { result ≡ place_of numbers.now ((get_or (modules_in numbers.now) m no_item).place + 12) module_widths j }
{
    let widths: [usize; 10] = [3, 1, 1, 1, 1, 1, 3, 2, 2, 2];
    let p = modules[m];
    list_place(numbers, p + 12, &widths, j)
}

// How many rows list j of module m has.
pub fn module_list_length(numbers: &[u32], modules: &[usize], m: usize, j: usize) -> usize
    requires module_table { ModuleTable numbers.now modules.now }
    requires m_bound { (m < (header_in numbers.now).modules) × (j < 10) }
    ensures { result ≡ length (get_or (get_or (modules_in numbers.now) m no_item).rows j []) }
{
    let p = module_list(numbers, modules, m, j);
    graph::rows_crate::wide(numbers[p])
}

// Number `column` of row k of list j of module m.
pub fn module_list_number(
    numbers: &[u32],
    modules: &[usize],
    m: usize,
    j: usize,
    k: usize,
    column: usize,
) -> usize
    requires module_table { ModuleTable numbers.now modules.now }
    requires m_bound { (m < (header_in numbers.now).modules) × (j < 10) × (k < length (get_or (get_or (modules_in numbers.now) m no_item).rows j [])) × (column < get_or module_widths j 0) }
    ensures { result ≡ get_or (get_or (get_or (get_or (modules_in numbers.now) m no_item).rows j []) k []) column 0 }
{
    let widths: [usize; 10] = [3, 1, 1, 1, 1, 1, 3, 2, 2, 2];
    let p = module_list(numbers, modules, m, j);
    graph::rows_crate::wide(numbers[p + 1 + widths[j] * k + column])
}

// The place of list j of symbol s.
fn symbol_list(numbers: &[u32], symbols: &[usize], s: usize, j: usize) -> usize
    requires symbol_table { SymbolTable numbers.now symbols.now }
    requires s_bound { (s < (header_in numbers.now).symbols) × (j < 3) }
    ensures { result ≡ place_of numbers.now ((get_or (symbols_in numbers.now) s no_item).place + 6) symbol_widths j }
{
    let widths: [usize; 3] = [1, 1, 1];
    let p = symbols[s];
    list_place(numbers, p + 6, &widths, j)
}

// How many elements list j of symbol s has.
pub fn symbol_list_length(numbers: &[u32], symbols: &[usize], s: usize, j: usize) -> usize
    requires symbol_table { SymbolTable numbers.now symbols.now }
    requires s_bound { (s < (header_in numbers.now).symbols) × (j < 3) }
    ensures { result ≡ length (get_or (get_or (symbols_in numbers.now) s no_item).rows j []) }
{
    let p = symbol_list(numbers, symbols, s, j);
    graph::rows_crate::wide(numbers[p])
}

// Element k of list j of symbol s.
pub fn symbol_list_number(numbers: &[u32], symbols: &[usize], s: usize, j: usize, k: usize) -> usize
    requires symbol_table { SymbolTable numbers.now symbols.now }
    requires s_bound { (s < (header_in numbers.now).symbols) × (j < 3) × (k < length (get_or (get_or (symbols_in numbers.now) s no_item).rows j [])) }
    ensures { result ≡ get_or (get_or (get_or (get_or (symbols_in numbers.now) s no_item).rows j []) k []) 0 0 }
{
    let p = symbol_list(numbers, symbols, s, j);
    graph::rows_crate::wide(numbers[p + 1 + k])
}
