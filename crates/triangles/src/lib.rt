// Triangles and what demand 3 says of them. No code.
#![tactic(auto)]
