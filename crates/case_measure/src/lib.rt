// The answers to `measure` and `part` lines.
#![tactic(auto)]

pub mod measuring;
pub mod parting;
