// A sheet that anyone made, looked over: in the first edition, or in the one that is told.
#![tactic(auto)]

pub mod check_sheet;
pub mod check_told;
