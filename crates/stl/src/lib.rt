// Binary STL: what a file is, what writing and reading one come to, and that reading gives back what was written.
#![tactic(auto)]

pub mod answer;
pub mod facet;
pub mod finite;
