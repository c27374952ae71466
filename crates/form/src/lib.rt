// The form of a path text: what each byte is to it, and which may follow which.
#![tactic(auto)]

pub mod classes;
pub mod machine;
