// No code: the keep rules as a relation, and that the list of consequences is that relation.
#![tactic(auto)]
