// The numbers of a graph file: unsigned LEB128 (DWARF 5, 7.6), in shortest form only, below 2^32.
#![tactic(auto)]

ghost use Rattle.std.specs.Prelude.{◌≡◌, true, ◌<◌, ◌≤◌, length, get_or, drop};
ghost use Rattle.leb128.specs.Read.{IsRead, read_of, answer_of, lent_of};
ghost use Rattle.leb128.specs.Number.{number_of, accepted};

// The crate below, for the crates above, which list this one alone.
pub use refusal as refusal_crate;
use refusal::Refusal;

// The number at `at`, whose first group is not its last, and the place behind it, or no number in shortest form below 2^32.
#[tactic(auto, using(crate::proofs::Scan::weight_low, crate::proofs::Scan::term_low, crate::proofs::Scan::rest_zero, crate::proofs::Scan::rest_big, crate::proofs::Scan::rest_last, crate::proofs::Scan::rest_full, crate::proofs::Scan::rest_end))]
fn longer_at(file: &[u8], at: usize) -> Option<(u32, usize)>
    requires at_in_bounds { at < length file.now }
    requires bound { 128 ≤ get_or file.now at 0 }
    ensures { result ≡ number_of at (drop at file.now) }
{
    let mut sum = (file[at] % 128) as u64;
    let mut weight: u64 = 128;
    let mut next = at + 1;
    while next < file.len() {
        let group = file[next];
        if group < 128 {
            // A last digit 0 is padding.
            if group == 0 {
                return None;
            }
            sum = sum + (group as u64) * weight;
            if sum >= 4294967296 {
                return None;
            }
            return Some((sum as u32, next + 1));
        }
        // The fifth group has to be the last.
        if next - at == 4 {
            return None;
        }
        sum = sum + ((group % 128) as u64) * weight;
        weight = weight * 128;
        next += 1;
    }
    None
}

// The number at `at`, and the place behind it, as `longer_at`. Most numbers have one group.
#[tactic(auto, using(crate::proofs::Scan::number_short))]
fn number_at(file: &[u8], at: usize) -> Option<(u32, usize)>
    requires { at < length file.now }
    ensures { result ≡ number_of at (drop at file.now) }
{
    let first = file[at];
    if first < 128 {
        return Some((first as u32, at + 1));
    }
    longer_at(file, at)
}

// How many numbers `file` has, where there is room for `room` of them.
#[tactic(auto, using(crate::proofs::Counting::count_start, crate::proofs::Counting::count_bad, crate::proofs::Counting::count_done))]
fn count(file: &[u8], room: usize) -> Result<usize, Refusal>
    ensures { result ≡ answer_of (read_of file.now room) }
{
    let mut n: usize = 0;
    let mut at: usize = 0;
    while at < file.len() {
        let Some((_, next)) = number_at(file, at) else {
            return Err(Refusal::NoNumber(at));
        };
        if n >= room {
            return Err(Refusal::NoRoom);
        }
        n += 1;
        at = next;
    }
    Ok(n)
}

// Writes the numbers of a good file, for which there is room.
#[tactic(auto, using(crate::proofs::Filling::fill_start, crate::proofs::Filling::never_bad, crate::proofs::Filling::fill_done))]
fn fill(file: &[u8], numbers: &mut [u32])
    requires { accepted (read_of file.now (length numbers.old)) ≡ true }
    ensures { numbers.new ≡ lent_of (read_of file.now (length numbers.old)) numbers.old }
{
    let mut n: usize = 0;
    let mut at: usize = 0;
    while at < file.len() {
        // Not reached: the file is good.
        let Some((x, next)) = number_at(file, at) else {
            return;
        };
        numbers[n] = x;
        n += 1;
        at = next;
    }
}

// Decodes `file` into the first of `numbers`. Refused, it leaves them as they were lent.
#[tactic(auto, using(crate::proofs::Counting::counted, crate::proofs::Counting::kept))]
pub fn read(file: &[u8], numbers: &mut [u32]) -> Result<usize, Refusal>
    ensures { IsRead file.now numbers.old result numbers.new }
{
    let n = count(file, numbers.len())?;
    fill(file, numbers);
    Ok(n)
}
