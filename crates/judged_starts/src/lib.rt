// No code: the starts that are given for a run are its own, and beside them the judge passes its lines.
#![tactic(auto)]
