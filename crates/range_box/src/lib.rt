// Boxes: intervals of encodings and the regions that they meet; no code.
#![tactic(auto)]
