// A sheet's table rebuilt: of the first edition, or of the one that is told.
#![tactic(auto)]

pub mod rebuild_table;
pub mod rebuild_told;
