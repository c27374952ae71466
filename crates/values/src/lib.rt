// What a path text means: its numbers, its points, and what each byte calls for.
#![tactic(auto)]

pub mod events;
pub mod known;
pub mod pen;
pub mod state;
