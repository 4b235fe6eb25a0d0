// The sections behind the places: what the rules and the answer rows read. And getting ready for an operation: the check and all sections.
#![tactic(auto)]

ghost use Rattle.std.specs.Prelude.{◌≡◌, ◌<◌, ◌≤◌, length};
ghost use Rattle.determine_side_effects.specs.tables_crate.Layout.{start_of, Laid, all_sections};
ghost use Rattle.determine_side_effects.specs.graph_tables_crate.Tables.{header_in};
ghost use Rattle.determine_side_effects.specs.graph_crate.Check.{check_of, answer_of, HeaderRead, OnceAccepted};
ghost use Rattle.determine_side_effects.specs.graph_crate.Loaded.{Loaded};
ghost use Rattle.keep_rules.specs.Prepared.{Prepared};
ghost use Rattle.answer_rows.specs.Tabled.{FirstBytes};

use determine_side_effects::graph_format_crate::Header;
use determine_side_effects::refusal_crate::Refusal;

// Fills them: the last verdicts, the modules on demand, the keys of their bodies, the CommonJS namespaces, the modules' first bytes.
fn fill(numbers: &[u32], tables: &mut [usize])
    requires loaded { Loaded numbers.now tables.old }
    requires laid { Laid (header_in numbers.now) all_sections tables.old }
    ensures { Prepared numbers.now tables.new × FirstBytes numbers.now tables.new }
{
    determine_side_effects::last_verdicts(numbers, tables);
    on_demand::fill_on_demand(numbers, tables);
    on_demand::compute_body_demand_keys(numbers, tables);
    linking_metadata::fill_namespaces(numbers, tables);
    answer_rows::fill_first_bytes(numbers, tables);
}

// Gets ready for an operation over a graph: loads and checks it, and fills all sections.
pub fn ready(numbers: &[u32], h: Header, tables: &mut [usize]) -> Result<(), Refusal>
    requires header_read { HeaderRead numbers.now h }
    requires all_sections_in_bounds { (start_of h all_sections ≤ length tables.old) × (length tables.old < 4294967296) }
    ensures { (result ≡ answer_of (check_of numbers.now)) × OnceAccepted result (Prepared numbers.now tables.new × FirstBytes numbers.now tables.new) }
{
    determine_side_effects::graph_crate::load(numbers, h, tables)?;
    fill(numbers, tables);
    Ok(())
}
