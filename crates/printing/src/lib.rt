// Printing to standard output: words with a space between them, lists of words, and what answers to cases share.
#![tactic(auto)]

mod printer;
mod replies;
mod rows;
mod words;

pub use crate::printer::Printer;
