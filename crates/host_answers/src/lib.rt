// No code: what follows from an answer at the C boundary that is not refused.
#![tactic(auto)]
