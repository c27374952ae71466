// The plane: points and vectors with euclid's order of operations, and lyon's `compute_normal`.
#![tactic(auto)]

pub mod normal;
pub mod vector;
