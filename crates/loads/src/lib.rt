// Loading a sheet onto a desk of a card: whole, cut, or one store of it. Anybody may make the three calls with
// anything; each ends with an answer or one refusal.
#![tactic(auto)]

pub mod load_cut;
pub mod load_desk;
pub mod load_store;
mod loading;
