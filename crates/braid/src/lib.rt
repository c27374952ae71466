// A run's triangles with arcs between them, and what demand 3 says of them (W-209). No code.
#![tactic(auto)]
