// The steps on the directory's words (document 01, "Lent memory"): definitions and laws, no code.
// Halving writes nothing.
#![tactic(auto)]
