// The answers to the kinds of case that one routine answers, a file to each. An answer is printed once the whole line was read and found in form.
#![tactic(auto)]

pub mod cap_case;
pub mod join_case;
mod join_words;
pub mod lent;
pub mod list_words;
pub mod normal_case;
mod reads;
pub mod root_case;
