// lyon's `PointBuffer`: the last three endpoints since `clear`, oldest first.
#![tactic(auto)]

pub mod answer;
pub mod buffer;
pub mod lent;
