// What the program prints for a file.
#![tactic(auto)]

ghost use Rattle.std.specs.Prelude.{◌≡◌, ℕ, ◌+◌, ◌*◌, ◌<◌, length};
ghost use Rattle.leb128.specs.Read.{read_of};
ghost use Rattle.determine_side_effects.specs.graph_crate.Check.{graph_in};
ghost use Rattle.determine_side_effects.specs.graph_crate.Loaded.{Loaded};
ghost use Rattle.determine_side_effects.specs.Effects.{last_verdicts};
ghost use Rattle.run_parts.specs.Operation.{outcome_of};
ghost use Rattle.listing.specs.Text.{shown_in};
ghost use Rattle.listing.specs.Listing.{shown, Fits, listing_of};
ghost use Rattle.answer_text.specs.Program.{program_rooms, outcome_text, decoded_text, program_text};

use determine_side_effects::tables_crate::LARGEST_PLACES;

// The listing of a run's answer, with the verdicts of the graph.
fn listed(
    numbers: &[u32],
    tables: &[usize],
    rounds: usize,
    count: usize,
    entries: &[u32],
    modules_row: &[u8],
    statements_row: &[u8],
    used: &[u8],
    external: &[u8],
    json: &[u8],
    reason: &[u8],
    dead: &[u8],
    helpers: &[u32],
    skip: usize,
    out: &mut [u8],
) -> usize
    requires loaded { Loaded numbers.now tables.now }
    requires fits { Fits (graph_in numbers.now) (shown rounds count (last_verdicts (graph_in numbers.now)) entries.now modules_row.now statements_row.now used.now external.now json.now reason.now dead.now helpers.now) }
    ensures { (result ≡ length (listing_of (graph_in numbers.now) (shown rounds count (last_verdicts (graph_in numbers.now)) entries.now modules_row.now statements_row.now used.now external.now json.now reason.now dead.now helpers.now))) × (out.new ≡ shown_in skip (listing_of (graph_in numbers.now) (shown rounds count (last_verdicts (graph_in numbers.now)) entries.now modules_row.now statements_row.now used.now external.now json.now reason.now dead.now helpers.now)) out.old) }
{
    let mut verdicts = [0u32; 1024];
    let _ = determine_side_effects::effects(numbers, &mut verdicts);
    let h = determine_side_effects::graph_crate::header_of(numbers);
    let size = h.modules;
    listing::form(
        numbers,
        tables,
        rounds,
        count,
        &verdicts[..size],
        entries,
        modules_row,
        statements_row,
        used,
        external,
        json,
        reason,
        dead,
        helpers,
        skip,
        out,
    )
}

// The text of a run over an accepted graph.
fn ran(numbers: &[u32], tables: &[usize], skip: usize, out: &mut [u8]) -> usize
    requires { Loaded numbers.now tables.now }
    ensures { (result ≡ length (outcome_text (outcome_of numbers.now program_rooms))) × (out.new ≡ shown_in skip (outcome_text (outcome_of numbers.now program_rooms)) out.old) }
{
    let mut marks = [0u8; 131328];
    let mut lines = [0u32; 6144];
    let mut modules_row = [0u8; 128];
    let mut statements_row = [0u8; 3072];
    let mut used = [0u8; 2048];
    let mut external = [0u8; 2048];
    let mut json = [0u8; 2048];
    let mut reason = [0u8; 1024];
    let mut dead = [0u8; 1024];
    let mut helpers = [0u32; 1024];
    let mut entries = [0u32; 1024];
    match run::run(
        numbers,
        &mut marks,
        &mut lines,
        &mut modules_row,
        &mut statements_row,
        &mut used,
        &mut external,
        &mut json,
        &mut reason,
        &mut dead,
        &mut helpers,
        &mut entries,
    ) {
        Err(why) => listing::refuse(why.number(), skip, out),
        Ok(t) => listed(
            numbers,
            tables,
            t.rounds,
            t.entries,
            &entries,
            &modules_row,
            &statements_row,
            &used,
            &external,
            &json,
            &reason,
            &dead,
            &helpers,
            skip,
            out,
        ),
    }
}

// The text of a graph's numbers.
fn checked(numbers: &[u32], skip: usize, out: &mut [u8]) -> usize
    ensures { (result ≡ length (outcome_text (outcome_of numbers.now program_rooms))) × (out.new ≡ shown_in skip (outcome_text (outcome_of numbers.now program_rooms)) out.old) }
{
    match determine_side_effects::graph_crate::header(numbers) {
        Err(why) => listing::refuse(why.number(), skip, out),
        Ok(_) => {
            let h = determine_side_effects::graph_crate::header_of(numbers);
            let mut tables = [0usize; LARGEST_PLACES];
            match determine_side_effects::graph_crate::load(numbers, h, &mut tables) {
                Err(why) => listing::refuse(why.number(), skip, out),
                Ok(()) => ran(numbers, &tables, skip, out),
            }
        }
    }
}

// The text of a file's bytes.
fn decoded(file: &[u8], skip: usize, out: &mut [u8]) -> usize
    ensures { (result ≡ length (decoded_text (read_of file.now 8192))) × (out.new ≡ shown_in skip (decoded_text (read_of file.now 8192)) out.old) }
{
    let mut numbers = [0u32; 8192];
    match leb128::read(file, &mut numbers) {
        Err(why) => listing::refuse(why.number(), skip, out),
        Ok(count) => checked(&numbers[..count], skip, out),
    }
}

// The text for a file: `front` has its first bytes, `behind` what follows the first 8,192. A row that is shorter than the text holds its part
// behind the first `skip` bytes. Gives how long the text is.
pub fn text(front: &[u8], behind: &[u8], skip: usize, out: &mut [u8]) -> usize
    ensures { (result ≡ length (program_text front.now behind.now)) × (out.new ≡ shown_in skip (program_text front.now behind.now) out.old) }
{
    if behind.len() > 0 {
        return listing::refuse(2, skip, out);
    }
    if front.len() > 8192 {
        return listing::refuse(2, skip, out);
    }
    decoded(front, skip, out)
}
