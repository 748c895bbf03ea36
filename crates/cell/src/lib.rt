// Cells of the directory: the index vector of a string of split bits, and its address. Definitions and laws; no code.
#![tactic(auto)]
