// The Rust's ordering of dynamic entries written over as definitions, and that its order and its cycles are ours. There is no code.
#![tactic(auto)]
