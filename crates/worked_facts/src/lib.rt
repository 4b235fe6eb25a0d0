// The worked facts that are proved: specs/Facts.antt has them as one table with one theorem. There is no code.
#![tactic(auto)]
