// Split steps, depths and split bits (document 01, "Shape and split steps"): definitions and laws. No code.
#![tactic(auto)]
