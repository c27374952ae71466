// What may not be misread: document 01's points, computed by the checker over the definitions, and that every public call has one outcome. No code.
#![tactic(auto)]
