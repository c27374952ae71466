// What the operations of f32 keep of exact arithmetic: no code, but laws.
#![tactic(auto)]
