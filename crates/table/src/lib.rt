// The proof table of document 01, as one theorem that the checker computes from the definitions. No code.
#![tactic(auto)]
