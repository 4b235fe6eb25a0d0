// Reading an accepted graph: each number by its name, through typed indexes.
#![tactic(auto)]

// The crates below, for the crates above, which list this one alone.
pub use graph as graph_crate;
pub use graph::{
    graph_entries_crate, graph_format_crate, graph_tables_crate, refusal_crate, rows_crate,
    tables_crate,
};
pub use index as index_crate;

pub mod entries;
pub mod helpers;
mod lists;
pub mod modules;
pub mod options;
pub mod statements;
pub mod symbols;
