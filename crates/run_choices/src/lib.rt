// A run's main part keeps the smallest closed choice that holds the run's own starts; how many lines and rounds there are at most. There is no
// code.
#![tactic(auto)]
