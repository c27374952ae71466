// The answers to `stlwrite` and `stlread` lines.
#![tactic(auto)]

pub mod reading;
pub mod writing;
