// Whether a line of a record is in form.
#![tactic(auto)]

ghost use Rattle.std.specs.Prelude.{◌≡◌, ◌+◌, ◌*◌, ◌≤◌, length};
ghost use Rattle.determine_side_effects.specs.graph_crate.Check.{graph_in};
ghost use Rattle.determine_side_effects.specs.graph_crate.Loaded.{Loaded};
ghost use Rattle.record_form.specs.Form.{parts_fit, is_earlier, names_fit, in_form};

// Whether these are the numbers of a fact.
fn parts_fit(numbers: &[u32], tables: &[usize], kind: usize, a: usize, b: usize) -> bool
    requires { Loaded numbers.now tables.now }
    ensures { result ≡ parts_fit (graph_in numbers.now) kind a b }
{
    if kind == 5 {
        let h = determine_side_effects::graph_crate::header_of(numbers);
        if a >= h.symbols {
            return false;
        }
        return b == 0;
    }
    starts::start_fault(numbers, tables, kind, a, b) == 0
}

// Whether n is 1 more than the number of a line before line k.
fn is_earlier(k: usize, n: usize) -> bool
    ensures { result ≡ is_earlier k n }
{
    if n == 0 {
        return false;
    }
    n <= k
}

// Whether line k of this rule may have these names.
fn names_fit(k: usize, rule: usize, a: usize, b: usize) -> bool
    ensures { result ≡ names_fit k rule a b }
{
    if rule == 0 {
        if a != 0 {
            return false;
        }
        return b == 0;
    }
    if !is_earlier(k, a) {
        return false;
    }
    if rule == 1 {
        return is_earlier(k, b);
    }
    b == 0
}

// Whether line k is in form.
pub fn is_in_form(numbers: &[u32], tables: &[usize], lines: &[u32], k: usize) -> bool
    requires loaded { Loaded numbers.now tables.now }
    requires k_in_bounds { 6 * k + 6 ≤ length lines.now }
    ensures { result ≡ in_form (graph_in numbers.now) lines.now k }
{
    let p = 6 * k;
    let kind = determine_side_effects::rows_crate::wide(lines[p]);
    let a = determine_side_effects::rows_crate::wide(lines[p + 1]);
    let b = determine_side_effects::rows_crate::wide(lines[p + 2]);
    if !parts_fit(numbers, tables, kind, a, b) {
        return false;
    }
    let rule = determine_side_effects::rows_crate::wide(lines[p + 3]);
    if rule >= 15 {
        return false;
    }
    names_fit(
        k,
        rule,
        determine_side_effects::rows_crate::wide(lines[p + 4]),
        determine_side_effects::rows_crate::wide(lines[p + 5]),
    )
}
