// The checker and the mesh call: what it says of every mesh that is written. No code.
#![tactic(auto)]
