// The wrong programs of documents 01 ("Review of the store", "Plausible faults") and 02: each
// contradicts a promise on some store. No code.
#![tactic(auto)]
