// The helper symbols of an accepted graph.
ghost use Rattle.std.specs.Prelude.{◌≡◌, ◌<◌, List, [], get_or};
ghost use Rattle.graph.specs.graph_tables_crate.Tables.{header_in};
ghost use Rattle.graph.specs.Check.{graph_in};
ghost use Rattle.graph.specs.Loaded.{Loaded};
ghost use Rattle.graph_access.specs.Names.{only};

use index::SymbolIdx;

// The symbol of helper k.
#[tactic(auto, using(crate::proofs::Indexes::helper_there, crate::proofs::Indexes::helper_is, crate::proofs::Indexes::helper_symbol_below))]
pub fn helper_symbol(numbers: &[u32], tables: &[usize], k: usize) -> SymbolIdx
    requires loaded { Loaded numbers.now tables.now }
    requires k_bound { k < (header_in numbers.now).helpers }
    ensures { (result.0 ≡ only (get_or (graph_in numbers.now).helpers k [])) × (result.0 < (header_in numbers.now).symbols) }
{
    SymbolIdx(graph::rows_crate::wide(numbers[7 + k]))
}
