// The Rust's determine_side_effects.rs written over as definitions, and that its verdicts are ours. There is no code.
#![tactic(auto)]
