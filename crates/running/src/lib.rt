// A sheet run at an assignment: of the first edition, or of the one that is told.
#![tactic(auto)]

pub mod run_sheet;
pub mod run_told;
