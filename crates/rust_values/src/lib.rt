// Values of the Rust that the definitions of its functions share: optional indexes, pairs, members of a list. There is no code.
#![tactic(auto)]
