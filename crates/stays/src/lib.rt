// Where the cuts of a dashed run lie (W-213): no code, but the proof.
#![tactic(auto)]
