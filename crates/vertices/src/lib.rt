// Vertices, written at the start of the part of a list that a caller lends: rule 8's, and those of the empty cap.
#![tactic(auto)]

pub mod base;
pub mod cap;
pub mod list;
