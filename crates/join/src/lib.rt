// The join rule: rules 4 to 6 of document 01, with lyon's `compute_join_side_positions`.
#![tactic(auto)]

mod clip;
pub mod edge;
pub mod record;
mod side;
