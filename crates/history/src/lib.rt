// Demand 3 over the promises of the calls: the statement and its proof. No code.
#![tactic(auto)]
