// The promise of `add` from what was found and planned and what the steps leave: laws alone.
#![tactic(auto)]
