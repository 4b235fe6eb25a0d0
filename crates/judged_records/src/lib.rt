// No code: what the judge passes, and that it passes what drains and runs write.
#![tactic(auto)]
