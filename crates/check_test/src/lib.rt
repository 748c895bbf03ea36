// The check of a lent store: yes exactly for a sound one (document 01, "Calls").
#![tactic(auto)]
