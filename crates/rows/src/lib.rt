// Reading lists of rows from a slice of numbers: each function ends where its definition does, or in the same fault.
#![tactic(auto)]

ghost use Rattle.std.specs.Prelude.{◌≡◌, ℕ, ◌+◌, ◌*◌, ◌<◌, ◌≤◌, List, [], ◌∷◌, Bool, true, false, length, get_or};
ghost use Rattle.rows.specs.Walk.{Parsed, walk_of, number, value, count, cells, many, list, firsts, firsts_at, repeated, elem, plain_row, distinct_row, row_of, columns_of};
ghost use Rattle.rows.specs.Chain.{Linked, Chained};

// The crate below, for the crates above, which list this one alone.
pub use refusal as refusal_crate;
use refusal::Refusal;

pub fn wide(x: u32) -> usize
    ensures { result ≡ x }
{
    x as usize
}

// One number, from `low` on and below `limit`.
pub fn within(numbers: &[u32], at: usize, low: usize, limit: usize) -> Result<usize, Refusal>
    ensures { result ≡ walk_of (number (value low limit) numbers.now at) }
{
    if at >= numbers.len() {
        return Err(Refusal::WrongLength(at));
    }
    let x = wide(numbers[at]);
    if x < low {
        return Err(Refusal::OutOfRange(at));
    }
    if x >= limit {
        return Err(Refusal::OutOfRange(at));
    }
    Ok(at + 1)
}

// A count, at most `most`, from `low` on and below `limit`.
pub fn counter(
    numbers: &[u32],
    at: usize,
    most: usize,
    low: usize,
    limit: usize,
) -> Result<usize, Refusal>
    ensures { result ≡ walk_of (number (count most low limit) numbers.now at) }
{
    if at < numbers.len() {
        if wide(numbers[at]) > most {
            return Err(Refusal::OverLimit(at));
        }
    }
    within(numbers, at, low, limit)
}

// A row of up to three columns, each below its limit.
pub fn row(
    numbers: &[u32],
    at: usize,
    width: usize,
    a: usize,
    b: usize,
    c: usize,
) -> Result<usize, Refusal>
    ensures { result ≡ walk_of (plain_row (columns_of width a b c) numbers.now [] at) }
{
    if width == 0 {
        return Ok(at);
    }
    let q = within(numbers, at, 0, a)?;
    if width == 1 {
        return Ok(q);
    }
    let s = within(numbers, q, 0, b)?;
    if width == 2 {
        return Ok(s);
    }
    within(numbers, s, 0, c)
}

// `count` rows.
pub fn plain_rows(
    numbers: &[u32],
    at: usize,
    count: usize,
    width: usize,
    a: usize,
    b: usize,
    c: usize,
) -> Result<usize, Refusal>
    ensures { result ≡ walk_of (many (plain_row (columns_of width a b c) numbers.now) firsts count [] at) }
{
    let mut q = at;
    for _i in 0..count {
        q = row(numbers, q, width, a, b, c)?;
    }
    Ok(q)
}

// Whether x is the first number of one of the `count` rows from `at` on.
fn seen(numbers: &[u32], at: usize, count: usize, width: usize, x: u32) -> bool
    requires count_in_bounds { at + width * count ≤ length numbers.now }
    requires width_nonzero { 0 < width }
    ensures { result ≡ elem x (firsts_at numbers.now at width count) }
{
    let mut k: usize = count;
    while k > 0 {
        k -= 1;
        if numbers[at + width * k] == x {
            return true;
        }
    }
    false
}

// Whether the number at q is the first number of one of the `count` rows from `at` on, which end at q.
fn repeats(numbers: &[u32], at: usize, count: usize, width: usize, q: usize) -> bool
    requires { (0 < width) × (q ≡ at + width * count) }
    ensures { result ≡ repeated numbers.now (firsts_at numbers.now at width count) q }
{
    if q >= numbers.len() {
        return false;
    }
    seen(numbers, at, count, width, numbers[q])
}

// `count` rows whose first numbers differ: each is looked for in all rows before it.
fn short_distinct_rows(
    numbers: &[u32],
    at: usize,
    count: usize,
    width: usize,
    a: usize,
    b: usize,
    c: usize,
) -> Result<usize, Refusal>
    requires { (0 < width) × (width ≤ 3) }
    ensures { result ≡ walk_of (many (distinct_row (columns_of width a b c) numbers.now) firsts count [] at) }
{
    let mut q = at;
    for k in 0..count {
        if repeats(numbers, at, k, width, q) {
            return Err(Refusal::OutOfRange(q));
        }
        q = row(numbers, q, width, a, b, c)?;
    }
    Ok(q)
}

// Puts row `count` into its chain.
fn link(
    numbers: &[u32],
    at: usize,
    count: usize,
    width: usize,
    heads: &mut [u32; 1024],
    nexts: &mut [u32; 16384],
)
    requires { (at + width * count < length numbers.now) × (count < 16384) × Chained numbers.now at width count heads.old nexts.old }
    ensures { Chained numbers.now at width (count + 1) heads.new nexts.new }
{
    let h = (numbers[at + width * count] % 1024) as usize;
    nexts[count] = heads[h];
    heads[h] = (count + 1) as u32;
}

// Whether the first number of row `count` is that of a row before it: goes back along its chain.
fn chained(numbers: &[u32], at: usize, count: usize, width: usize, nexts: &[u32; 16384]) -> bool
    requires { (0 < width) × (at + width * count < length numbers.now) × (count < 16384) × Linked numbers.now at width (count + 1) nexts.now }
    ensures { result ≡ elem (get_or numbers.now (at + width * count) 0) (firsts_at numbers.now at width count) }
{
    let x = numbers[at + width * count];
    let mut v = nexts[count] as usize;
    while v > 0 {
        let j = v - 1;
        if numbers[at + width * j] == x {
            return true;
        }
        v = nexts[j] as usize;
    }
    false
}

// Whether the number at q is the first number of one of the `count` rows from `at` on, which end at q. Row `count` is put into its chain.
fn chained_repeats(
    numbers: &[u32],
    at: usize,
    count: usize,
    width: usize,
    q: usize,
    heads: &mut [u32; 1024],
    nexts: &mut [u32; 16384],
) -> bool
    requires { (0 < width) × (q ≡ at + width * count) × (count < 16384) × Chained numbers.now at width count heads.old nexts.old }
    ensures value { result ≡ repeated numbers.now (firsts_at numbers.now at width count) q }
    ensures chained { q < length numbers.now → Chained numbers.now at width (count + 1) heads.new nexts.new }
{
    if q >= numbers.len() {
        return false;
    }
    link(numbers, at, count, width, heads, nexts);
    chained(numbers, at, count, width, nexts)
}

// `count` rows whose first numbers differ: each is looked for in the rows before it whose first number is the same modulo 1024. The tables are clear.
fn chained_rows(
    numbers: &[u32],
    at: usize,
    count: usize,
    width: usize,
    a: usize,
    b: usize,
    c: usize,
    heads: &mut [u32; 1024],
    nexts: &mut [u32; 16384],
) -> Result<usize, Refusal>
    requires { (0 < width) × (width ≤ 3) × (count ≤ 16384) × Chained numbers.now at width 0 heads.old nexts.old }
    ensures { result ≡ walk_of (many (distinct_row (columns_of width a b c) numbers.now) firsts count [] at) }
{
    let mut place = at;
    for k in 0..count {
        if chained_repeats(numbers, at, k, width, place, heads, nexts) {
            return Err(Refusal::OutOfRange(place));
        }
        place = row(numbers, place, width, a, b, c)?;
    }
    Ok(place)
}

// chained_rows with tables of its own. `again` is 0: the call of itself keeps a compiler from merging this frame into its caller's (docs/DECISIONS.md).
fn long_distinct_rows(
    numbers: &[u32],
    at: usize,
    count: usize,
    width: usize,
    a: usize,
    b: usize,
    c: usize,
    again: usize,
) -> Result<usize, Refusal>
    requires { (0 < width) × (width ≤ 3) × (count ≤ 16384) }
    ensures { result ≡ walk_of (many (distinct_row (columns_of width a b c) numbers.now) firsts count [] at) }
{
    let mut heads = [0u32; 1024];
    let mut nexts = [0u32; 16384];
    let end = chained_rows(numbers, at, count, width, a, b, c, &mut heads, &mut nexts);
    if again > 0 {
        return long_distinct_rows(numbers, at, count, width, a, b, c, again - 1);
    }
    end
}

// `count` rows whose first numbers differ.
pub fn distinct_rows(
    numbers: &[u32],
    at: usize,
    count: usize,
    width: usize,
    a: usize,
    b: usize,
    c: usize,
) -> Result<usize, Refusal>
    requires { (0 < width) × (width ≤ 3) × (count ≤ 16384) }
    ensures { result ≡ walk_of (many (distinct_row (columns_of width a b c) numbers.now) firsts count [] at) }
{
    if count <= 64 {
        short_distinct_rows(numbers, at, count, width, a, b, c)
    } else {
        long_distinct_rows(numbers, at, count, width, a, b, c, frames::apart(numbers))
    }
}

// `count` rows, distinct or not.
fn some_rows(
    numbers: &[u32],
    q: usize,
    count: usize,
    distinct: bool,
    width: usize,
    a: usize,
    b: usize,
    c: usize,
) -> Result<usize, Refusal>
    requires { (0 < width) × (width ≤ 3) × (count ≤ 16384) }
    ensures { result ≡ walk_of (many (row_of distinct (columns_of width a b c) numbers.now) firsts count [] q) }
{
    if distinct {
        distinct_rows(numbers, q, count, width, a, b, c)
    } else {
        plain_rows(numbers, q, count, width, a, b, c)
    }
}

// A list: a count below `counts`, then rows.
pub fn rows(
    numbers: &[u32],
    at: usize,
    counts: usize,
    distinct: bool,
    width: usize,
    a: usize,
    b: usize,
    c: usize,
) -> Result<usize, Refusal>
    requires { (0 < width) × (width ≤ 3) }
    ensures { result ≡ walk_of (list (record { counts = counts; row = row_of distinct (columns_of width a b c) numbers.now }) numbers.now at) }
{
    let q = counter(numbers, at, 16384, 0, counts)?;
    let count = wide(numbers[at]);
    if count == 0 {
        return Ok(q);
    }
    some_rows(numbers, q, count, distinct, width, a, b, c)
}
