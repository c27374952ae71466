// How far a stripe can reach: no code, but a theorem of the mesh call's own vertex list.
#![tactic(auto)]
