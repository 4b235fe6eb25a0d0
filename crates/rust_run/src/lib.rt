// The Rust's include_statements() written over as definitions, and that what it leads to is what a run answers. There is no code.
#![tactic(auto)]
