// The bench: making a sheet, in the first edition or in the one that is told.
#![tactic(auto)]

pub mod make_sheet;
pub mod make_told;
