// The directory of a state in a lent slice: a definition and laws.
#![tactic(auto)]
