// The best split over how many first cells there are: alone, and over the inputs that count.
#![tactic(auto)]

pub mod counted;
pub mod over;
