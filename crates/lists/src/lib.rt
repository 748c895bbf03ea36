// Definitions and laws of booleans, numbers and lists that several crates cite. No code.
#![tactic(auto)]
