// The engine of the Rust written over as definitions, and what it includes. There is no code.
#![tactic(auto)]
