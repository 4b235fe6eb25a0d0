// Runs with options bit 7: until when they make rounds, that they keep the smallest choice that is closed and acts on bailouts and dynamic entries, and
// that the order of the entries plays no part in it. There is no code.
#![tactic(auto)]
