// Several first cells: a named split tried with them, and the best split over how many there are.
#![tactic(auto)]

pub mod find_several;
pub mod try_several;
