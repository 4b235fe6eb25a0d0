// What the program `keep` prints: lines of a word and numbers. A row that is shorter than the text holds a window on it: its part behind the
// first `skip` bytes.
#![tactic(auto)]

ghost use Rattle.std.specs.Prelude.{◌≡◌, ℕ, ◌+◌, ◌*◌, ◌<◌, ◌≤◌, Bool, true, false, ◌&&◌, List, [], ◌∷◌, ◌++◌, eqb, length, get_or};
ghost use Rattle.bit_row.specs.Row.{bit_at};
ghost use Rattle.graph_access.specs.graph_tables_crate.Tables.{header_in};
ghost use Rattle.graph_access.specs.graph_crate.Check.{graph_in};
ghost use Rattle.graph_access.specs.graph_crate.Loaded.{Loaded};
ghost use Rattle.graph_access.specs.Names.{owner, import_records};
ghost use Rattle.graph_access.specs.Words.{module_of, symbol_of, statement_list};
ghost use Rattle.answer_rows.specs.Shown.{bytes_before, bit_value};
ghost use Rattle.dynamic_entries.specs.Alive.{records_before};
ghost use Rattle.listing.specs.Text.{digits, decimal, numbers_text, line, only_if, text_of, shown_in, Emits};
ghost use Rattle.listing.specs.Listing.{shown, Fits, statement_word, dead_word, entry_text, module_text, statement_text, symbol_text, json_text, dead_text, listing_of, refused_text};
ghost use Rattle.listing.specs.Parts.{of_entries, of_modules, of_statements, of_json, of_dead, pair_text};

use graph_access::index_crate::{EntryIdx, ModuleIdx, SymbolIdx};
use graph_access::{entries, modules, statements, symbols};

// Adds a byte behind a text of `at` bytes. Gives how long the text is then.
fn put_byte(skip: usize, at: usize, byte: u8, out: &mut [u8]) -> usize
    requires { at < 1099511627776 }
    ensures { Emits skip (byte ∷ []) at out.old out.new result }
{
    if at >= skip {
        if at - skip < out.len() {
            out[at - skip] = byte;
        }
    }
    at + 1
}

// Adds a word.
fn put_word(word: &[u8], skip: usize, at: usize, out: &mut [u8]) -> usize
    requires { (at < 549755813888) × (length word.now ≤ 16) }
    ensures { Emits skip word.now at out.old out.new result × (result ≤ at + 16) }
{
    let mut end = at;
    for i in 0..word.len() {
        end = put_byte(skip, end, word[i], out);
    }
    end
}

// Adds the digits of a number, at most `fuel` of them.
fn put_digits(fuel: usize, n: usize, skip: usize, at: usize, out: &mut [u8]) -> usize
    requires { (at < 549755814016) × (fuel ≤ 20) }
    ensures { Emits skip (digits fuel n) at out.old out.new result × (result ≤ at + fuel) }
{
    if fuel == 0 {
        return at;
    }
    if n < 10 {
        return put_byte(skip, at, 48 + n as u8, out);
    }
    let end = put_digits(fuel - 1, n / 10, skip, at, out);
    put_byte(skip, end, 48 + (n % 10) as u8, out)
}

// Adds a number behind a space.
fn put_number(n: usize, skip: usize, at: usize, out: &mut [u8]) -> usize
    requires { at < 549755814000 }
    ensures { Emits skip (32 ∷ decimal n) at out.old out.new result × (result ≤ at + 21) }
{
    let end = put_byte(skip, at, b' ', out);
    put_digits(20, n, skip, end, out)
}

// Adds numbers, each behind a space, and the line's end.
fn put_numbers(numbers: &[usize], skip: usize, at: usize, out: &mut [u8]) -> usize
    requires { (at < 549755813904) × (length numbers.now ≤ 5) }
    ensures { Emits skip (numbers_text numbers.now) at out.old out.new result × (result ≤ at + 106) }
{
    let mut end = at;
    for i in 0..numbers.len() {
        end = put_number(numbers[i], skip, end, out);
    }
    put_byte(skip, end, b'\n', out)
}

// Adds a line.
fn put_line(word: &[u8], numbers: &[usize], skip: usize, at: usize, out: &mut [u8]) -> usize
    requires { (at < 549755813888) × (length word.now ≤ 16) × (length numbers.now ≤ 5) }
    ensures { Emits skip (line word.now numbers.now) at out.old out.new result × (result ≤ at + 128) }
{
    let end = put_word(word, skip, at, out);
    put_numbers(numbers, skip, end, out)
}

// Adds a line if a condition holds.
fn put_line_if(
    holds: bool,
    word: &[u8],
    numbers: &[usize],
    skip: usize,
    at: usize,
    out: &mut [u8],
) -> usize
    requires { (at < 549755813888) × (length word.now ≤ 16) × (length numbers.now ≤ 5) }
    ensures { Emits skip (only_if holds (line word.now numbers.now)) at out.old out.new result × (result ≤ at + 128) }
{
    if holds {
        return put_line(word, numbers, skip, at, out);
    }
    at
}

// Forms the text of a refusal. Gives how long it is.
pub fn refuse(number: u32, skip: usize, out: &mut [u8]) -> usize
    ensures { (result ≡ length (refused_text number)) × (out.new ≡ shown_in skip (refused_text number) out.old) }
{
    let numbers = [graph_access::rows_crate::wide(number)];
    put_line(b"refused", &numbers, skip, 0, out)
}

// Adds the line of final entry k.
fn put_entry(
    numbers: &[u32],
    tables: &[usize],
    row: &[u32],
    k: usize,
    skip: usize,
    at: usize,
    out: &mut [u8],
) -> usize
    requires loaded { Loaded numbers.now tables.now }
    requires at_bound { (at < 549755813888) × (k < length row.now) × (get_or row.now k 0 < (header_in numbers.now).entries) }
    ensures { Emits skip (entry_text (graph_in numbers.now) (of_entries row.now) k) at out.old out.new result × (result ≤ at + 128) }
{
    let e = EntryIdx(graph_access::rows_crate::wide(row[k]));
    let m = entries::entry_module(numbers, tables, e);
    let line = [m.0, entries::entry_kind(numbers, tables, e)];
    put_line(b"entry", &line, skip, at, out)
}

// Adds the lines of the final entries.
fn put_entries(
    numbers: &[u32],
    tables: &[usize],
    row: &[u32],
    count: usize,
    skip: usize,
    at: usize,
    out: &mut [u8],
) -> usize
    requires loaded { Loaded numbers.now tables.now }
    requires at_bound { (at < 137438953472) × (count ≤ length row.now) × (count ≤ 1024) × ((k : ℕ) → k < count → get_or row.now k 0 < (header_in numbers.now).entries) }
    ensures { Emits skip (text_of (entry_text (graph_in numbers.now) (of_entries row.now)) 0 count) at out.old out.new result × (result ≤ at + 131072) }
{
    let mut end = at;
    for k in 0..count {
        end = put_entry(numbers, tables, row, k, skip, end, out);
    }
    end
}

// A bit as a number.
fn bit_value(row: &[u8], i: usize) -> usize
    requires { i < 8 * length row.now }
    ensures { result ≡ bit_value (bit_at row.now i) 0 }
{
    if bit_row::test(row, i) {
        return 1;
    }
    0
}

// Adds the line of module m, if it is a normal one.
fn put_module(
    numbers: &[u32],
    tables: &[usize],
    verdicts: &[u32],
    kept: &[u8],
    reason: &[u8],
    helpers: &[u32],
    m: usize,
    skip: usize,
    at: usize,
    out: &mut [u8],
) -> usize
    requires loaded { Loaded numbers.now tables.now }
    requires at_bound { (at < 549755813888) × (m < (header_in numbers.now).modules) × (m < length verdicts.now) × (m < 8 * length kept.now) × (m < length reason.now) × (m < length helpers.now) }
    ensures { Emits skip (module_text (graph_in numbers.now) (of_modules verdicts.now kept.now reason.now helpers.now) m) at out.old out.new result × (result ≤ at + 128) }
{
    let is_normal = modules::is_normal(numbers, tables, ModuleIdx(m));
    let is_kept = bit_value(kept, m);
    let effects = graph_access::rows_crate::wide(verdicts[m]);
    let reason_bits = reason[m] as usize;
    let helper_bits = graph_access::rows_crate::wide(helpers[m]);
    let line = [m, is_kept, effects, reason_bits, helper_bits];
    put_line_if(is_normal, b"module", &line, skip, at, out)
}

// Adds the lines of the modules.
fn put_modules(
    numbers: &[u32],
    tables: &[usize],
    verdicts: &[u32],
    kept: &[u8],
    reason: &[u8],
    helpers: &[u32],
    count: usize,
    skip: usize,
    at: usize,
    out: &mut [u8],
) -> usize
    requires loaded { Loaded numbers.now tables.now }
    requires at_bound { (at < 137438953472) × (count ≡ (header_in numbers.now).modules) × (count ≤ length verdicts.now) × (count ≤ 8 * length kept.now) × (count ≤ length reason.now) × (count ≤ length helpers.now) }
    ensures { Emits skip (text_of (module_text (graph_in numbers.now) (of_modules verdicts.now kept.now reason.now helpers.now)) 0 count) at out.old out.new result × (result ≤ at + 131072) }
{
    let mut end = at;
    for m in 0..count {
        end = put_module(
            numbers, tables, verdicts, kept, reason, helpers, m, skip, end, out,
        );
    }
    end
}

// Adds a line of m and i for each of `count` bits, from bit `first` on, that is set.
fn put_pairs(
    word: &[u8],
    row: &[u8],
    first: usize,
    m: usize,
    count: usize,
    skip: usize,
    at: usize,
    out: &mut [u8],
) -> usize
    requires { (at < 274877906944) × (length word.now ≤ 16) × (first + count ≤ 8 * length row.now) × (first ≤ 274877906944) × (count ≤ 16384) }
    ensures { Emits skip (text_of (pair_text word.now row.now first m) 0 count) at out.old out.new result × (result ≤ at + 2097152) }
{
    let mut end = at;
    for i in 0..count {
        let line = [m, i];
        end = put_line_if(bit_row::test(row, first + i), word, &line, skip, end, out);
    }
    end
}

// Adds the lines of a module's statements, whose bits begin at byte `first`.
fn put_statements_of(
    row: &[u8],
    first: usize,
    m: usize,
    count: usize,
    skip: usize,
    at: usize,
    out: &mut [u8],
) -> usize
    requires { (at < 274877906944) × (8 * first + count ≤ 8 * length row.now) × (first ≤ 16777216) × (count ≤ 16384) }
    ensures { Emits skip (text_of (pair_text statement_word row.now (8 * first) m) 0 count) at out.old out.new result × (result ≤ at + 2097152) }
{
    put_pairs(b"statement", row, 8 * first, m, count, skip, at, out)
}

// Adds the lines of the statements.
fn put_statements(
    numbers: &[u32],
    tables: &[usize],
    row: &[u8],
    count: usize,
    skip: usize,
    at: usize,
    out: &mut [u8],
) -> usize
    requires loaded { Loaded numbers.now tables.now }
    requires at_bound { (at < 137438953472) × (count ≡ (header_in numbers.now).modules) × (bytes_before (graph_in numbers.now).statements count ≤ length row.now) }
    ensures { Emits skip (text_of (λ m. text_of (statement_text (graph_in numbers.now) (of_statements row.now) m) 0 (length (statement_list (graph_in numbers.now) m))) 0 count) at out.old out.new result × (result ≤ at + 2147483648) }
{
    let mut end = at;
    let mut first: usize = 0;
    for m in 0..count {
        let size = modules::statement_count(numbers, tables, ModuleIdx(m));
        end = put_statements_of(row, first, m, size, skip, end, out);
        first += bit_row::bytes_for(size);
    }
    end
}

// Adds a line for each of the first `count` bits of a row that is set.
fn put_symbols(
    word: &[u8],
    row: &[u8],
    count: usize,
    skip: usize,
    at: usize,
    out: &mut [u8],
) -> usize
    requires { (at < 274877906944) × (length word.now ≤ 16) × (count ≤ 8 * length row.now) × (count ≤ 16384) }
    ensures { Emits skip (text_of (symbol_text word.now row.now) 0 count) at out.old out.new result × (result ≤ at + 2097152) }
{
    let mut end = at;
    for s in 0..count {
        let line = [s];
        end = put_line_if(bit_row::test(row, s), word, &line, skip, end, out);
    }
    end
}

// Whether symbol s is one of module m, with its bit set.
fn is_json(numbers: &[u32], tables: &[usize], row: &[u8], m: usize, s: usize) -> bool
    requires loaded { Loaded numbers.now tables.now }
    requires s_bound { (s < (header_in numbers.now).symbols) × (s < 8 * length row.now) }
    ensures { result ≡ (bit_at row.now s && eqb (owner (symbol_of (graph_in numbers.now) s)) m) }
{
    if bit_row::test(row, s) {
        let owner = symbols::owner(numbers, tables, SymbolIdx(s));
        return owner.0 == m;
    }
    false
}

// Adds the line of a module's Json symbol, if s is one.
fn put_json_symbol(
    numbers: &[u32],
    tables: &[usize],
    row: &[u8],
    m: usize,
    s: usize,
    skip: usize,
    at: usize,
    out: &mut [u8],
) -> usize
    requires loaded { Loaded numbers.now tables.now }
    requires at_bound { (at < 549755813888) × (s < (header_in numbers.now).symbols) × (s < 8 * length row.now) }
    ensures { Emits skip (json_text (graph_in numbers.now) (of_json row.now) m s) at out.old out.new result × (result ≤ at + 128) }
{
    let holds = is_json(numbers, tables, row, m, s);
    let line = [m, s];
    put_line_if(holds, b"json", &line, skip, at, out)
}

// Adds the lines of a module's Json symbols.
fn put_json_of(
    numbers: &[u32],
    tables: &[usize],
    row: &[u8],
    m: usize,
    count: usize,
    skip: usize,
    at: usize,
    out: &mut [u8],
) -> usize
    requires loaded { Loaded numbers.now tables.now }
    requires at_bound { (at < 274877906944) × (count ≡ (header_in numbers.now).symbols) × (count ≤ 8 * length row.now) }
    ensures { Emits skip (text_of (json_text (graph_in numbers.now) (of_json row.now) m) 0 count) at out.old out.new result × (result ≤ at + 2097152) }
{
    let mut end = at;
    for s in 0..count {
        end = put_json_symbol(numbers, tables, row, m, s, skip, end, out);
    }
    end
}

// Adds the lines of the Json symbols.
fn put_json(
    numbers: &[u32],
    tables: &[usize],
    row: &[u8],
    count: usize,
    symbols: usize,
    skip: usize,
    at: usize,
    out: &mut [u8],
) -> usize
    requires loaded { Loaded numbers.now tables.now }
    requires at_bound { (at < 137438953472) × (count ≡ (header_in numbers.now).modules) × (symbols ≡ (header_in numbers.now).symbols) × (symbols ≤ 8 * length row.now) }
    ensures { Emits skip (text_of (λ m. text_of (json_text (graph_in numbers.now) (of_json row.now) m) 0 symbols) 0 count) at out.old out.new result × (result ≤ at + 2147483648) }
{
    let mut end = at;
    for m in 0..count {
        end = put_json_of(numbers, tables, row, m, symbols, skip, end, out);
    }
    end
}

// Adds the lines of a module's dead import records, whose bits begin at bit `first`.
fn put_dead_of(
    row: &[u8],
    first: usize,
    m: usize,
    count: usize,
    skip: usize,
    at: usize,
    out: &mut [u8],
) -> usize
    requires { (at < 274877906944) × (first + count ≤ 8 * length row.now) × (first ≤ 16777216) × (count ≤ 16384) }
    ensures { Emits skip (text_of (pair_text dead_word row.now first m) 0 count) at out.old out.new result × (result ≤ at + 2097152) }
{
    put_pairs(b"dead", row, first, m, count, skip, at, out)
}

// Adds the lines of the dead import records.
fn put_dead(
    numbers: &[u32],
    tables: &[usize],
    row: &[u8],
    count: usize,
    skip: usize,
    at: usize,
    out: &mut [u8],
) -> usize
    requires loaded { Loaded numbers.now tables.now }
    requires at_bound { (at < 137438953472) × (count ≡ (header_in numbers.now).modules) × (records_before (graph_in numbers.now).modules count ≤ 8 * length row.now) }
    ensures { Emits skip (text_of (λ m. text_of (dead_text (graph_in numbers.now) (of_dead row.now) m) 0 (length (import_records (module_of (graph_in numbers.now) m)))) 0 count) at out.old out.new result × (result ≤ at + 2147483648) }
{
    let mut end = at;
    let mut first: usize = 0;
    for m in 0..count {
        let size = modules::import_record_count(numbers, tables, ModuleIdx(m));
        end = put_dead_of(row, first, m, size, skip, end, out);
        first += size;
    }
    end
}

// Forms the listing of an answer. Gives how long it is.
pub fn form(
    numbers: &[u32],
    tables: &[usize],
    rounds: usize,
    count: usize,
    verdicts: &[u32],
    entries: &[u32],
    modules_row: &[u8],
    statements_row: &[u8],
    used: &[u8],
    external: &[u8],
    json: &[u8],
    reason: &[u8],
    dead: &[u8],
    helpers: &[u32],
    skip: usize,
    out: &mut [u8],
) -> usize
    requires loaded { Loaded numbers.now tables.now }
    requires fits { Fits (graph_in numbers.now) (shown rounds count verdicts.now entries.now modules_row.now statements_row.now used.now external.now json.now reason.now dead.now helpers.now) }
    ensures { (result ≡ length (listing_of (graph_in numbers.now) (shown rounds count verdicts.now entries.now modules_row.now statements_row.now used.now external.now json.now reason.now dead.now helpers.now))) × (out.new ≡ shown_in skip (listing_of (graph_in numbers.now) (shown rounds count verdicts.now entries.now modules_row.now statements_row.now used.now external.now json.now reason.now dead.now helpers.now)) out.old) }
{
    let h = graph_access::graph_crate::header_of(numbers);
    let line = [rounds];
    let mut at = put_line(b"rounds", &line, skip, 0, out);
    at = put_entries(numbers, tables, entries, count, skip, at, out);
    at = put_modules(
        numbers,
        tables,
        verdicts,
        modules_row,
        reason,
        helpers,
        h.modules,
        skip,
        at,
        out,
    );
    at = put_statements(numbers, tables, statements_row, h.modules, skip, at, out);
    at = put_symbols(b"used", used, h.symbols, skip, at, out);
    at = put_symbols(b"external", external, h.symbols, skip, at, out);
    at = put_json(numbers, tables, json, h.modules, h.symbols, skip, at, out);
    put_dead(numbers, tables, dead, h.modules, skip, at, out)
}
