// Lines of text, as cases and answers are written: words, numbers, floats, byte lists, and how these are printed.
#![tactic(auto)]

pub mod at;
pub mod byte_lists;
mod digits;
pub mod floats;
pub mod numbers;
mod prints;
pub mod words;
