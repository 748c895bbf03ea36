// Stores that change in one region: definitions and laws of insert and delete; no code.
#![tactic(auto)]
