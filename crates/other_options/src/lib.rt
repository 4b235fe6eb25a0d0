// Graphs that differ in their options alone: the steps of a run that read none of the bits in which they differ are the same. There is no code.
#![tactic(auto)]
