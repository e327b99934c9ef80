// The best split found: in the first edition, or in the one that is told.
#![tactic(auto)]

pub mod find_best;
pub mod find_told;
