// Whether a step follows from earlier ones.
#![tactic(auto)]

pub mod following;
pub mod open;
pub mod trail;
