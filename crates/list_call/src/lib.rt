// The promise of a call that lists records into its output, from what its walk noted and what it
// puts out: a query's and a range's (document 01, "Calls"; document 02, request 1). The crate has
// no code.
#![tactic(auto)]
