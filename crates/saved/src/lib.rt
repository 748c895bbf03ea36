// Saved and loaded stores (document 02, request 5): equal bytes, saving after a load, loading again,
// demand 3 from a loaded store. Theorems over the promises of save and load; no code.
#![tactic(auto)]
