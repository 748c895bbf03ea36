// The address map of the directory (document 01, "Address map"): definitions and laws, no code.
#![tactic(auto)]
