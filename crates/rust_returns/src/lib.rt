// That the Rust's include_statements(), written over as definitions, returns exactly where no circle of uses is reached. There is no code.
#![tactic(auto)]
