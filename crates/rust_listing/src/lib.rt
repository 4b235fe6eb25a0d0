// No code: the listing of the Rust, and that the program prints it.
#![tactic(auto)]
