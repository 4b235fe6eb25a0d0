// The smallest closed choice: specs/ says what it is, proofs/ that a drain's facts are it. There is no code.
#![tactic(auto)]
