// What may not be misread of STL: no code, but that each call has one outcome, and that what the mesh call writes reads back.
#![tactic(auto)]
