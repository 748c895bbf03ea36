// The promise of delete from its plan, the tests before a write and what the steps leave: laws alone.
#![tactic(auto)]
