// What stands along the kept points of a run: the legs between them with their advancements (rule 3), and the joints (rules 5 and 7).
#![tactic(auto)]

pub mod joint;
pub mod leg;
