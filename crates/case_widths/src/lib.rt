// The answers to `widen` and `narrow` lines. What a line has is read and printed as u32; the calls themselves make a u16 list of it, and the other way.
#![tactic(auto)]

pub mod narrowing;
mod reply;
pub mod widening;
