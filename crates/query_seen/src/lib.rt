// What a query's walk over the regions sees in any directory and any pages, sound or not, as
// mathematics: in a sound store the pages of the agreeing leaves that are not empty, in order
// (document 01, "Calls"). The crate has no code.
#![tactic(auto)]
