// A marked store as the unmarked store of its encodings (document 02, request 4): laws of the model, of
// soundness and of Fresh. No code.
#![tactic(auto)]
