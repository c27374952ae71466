// Demand 3 of what a round run of two kept points or more draws (W-209): braid's laws of items said of what woven draws. No code.
#![tactic(auto)]
