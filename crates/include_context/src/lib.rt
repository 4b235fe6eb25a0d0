// What the rules read of a graph, in one value.
#![tactic(auto)]

// 000, include_statements.rs: `IncludeContext`; here the graph's numbers and the one slice of its tables. The judge's walk over all lines takes it
// (`completeness`).
#[derive(Drop)]
pub struct IncludeContext<'a> {
    pub numbers: &'a [u32],
    pub tables: &'a [usize],
}
