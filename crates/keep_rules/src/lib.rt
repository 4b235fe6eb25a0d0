// What the rules of every kind of fact share.
#![tactic(auto)]

ghost use Rattle.std.specs.Prelude.{◌≡◌, ℕ, ◌+◌, ◌-◌, ◌<◌, ◌≤◌, List, [], ◌∷◌, Bool, true, false, length, get_or, drop};
ghost use Rattle.determine_side_effects.specs.graph_tables_crate.Tables.{header_in};
ghost use Rattle.determine_side_effects.specs.graph_crate.Check.{graph_in};
ghost use Rattle.determine_side_effects.specs.Effects.{last_verdicts};
ghost use Rattle.determine_side_effects.specs.facts_crate.Facts.{Good, statement_fact, use_fact};
ghost use Rattle.determine_side_effects.specs.graph_access_crate.Words.{option as option_of};
ghost use Rattle.keep_rules.specs.Rules.{forwards, forward_candidate};
ghost use Rattle.keep_rules.specs.Prepared.{Prepared, GoodCandidate};

use determine_side_effects::facts_crate::Fact;
use determine_side_effects::graph_access_crate::symbols;
use determine_side_effects::index_crate::SymbolIdx;

// What one candidate of a rule gives.
#[derive(Clone, Copy)]
pub enum Candidate {
    Gives(Fact),
    Nothing,
}

// An option bit.
pub fn option(numbers: &[u32], k: usize) -> bool
    requires { (7 ≤ length numbers.now) × (k < 32) }
    ensures { result ≡ option_of (graph_in numbers.now) k }
{
    let h = determine_side_effects::graph_crate::header_of(numbers);
    determine_side_effects::facts_crate::flag(h.options, k)
}

// How many forwards a symbol has: itself and its chain (`retain_forwarding_declarations`).
pub fn forward_count(numbers: &[u32], tables: &[usize], s: SymbolIdx) -> usize
    requires prepared { Prepared numbers.now tables.now }
    requires s_bound { s.0 < (header_in numbers.now).symbols }
    ensures { (result ≡ forwards (graph_in numbers.now) s.0) × (result < 32768) }
{
    1 + symbols::export_chain_count(numbers, tables, s)
}

// Forward k of a symbol.
pub fn forward_candidate(numbers: &[u32], tables: &[usize], s: SymbolIdx, k: usize) -> Candidate
    requires prepared { Prepared numbers.now tables.now }
    requires s_bound { (s.0 < (header_in numbers.now).symbols) × (k < forwards (graph_in numbers.now) s.0) }
    ensures { (result ≡ forward_candidate (graph_in numbers.now) s.0 k) × GoodCandidate (graph_in numbers.now) result }
{
    if k == 0 {
        return Candidate::Gives(Fact::Forward(s));
    }
    Candidate::Gives(Fact::Forward(symbols::export_chain(numbers, tables, s, k - 1)))
}
