// A named split tried: in the first edition, or in the one that is told.
#![tactic(auto)]

mod filling;
pub mod try_split;
pub mod try_told;
