// Sheets printed as formulas. A call has one file, as on the bench; the cells of one or two signals, the look at
// whether a sheet is printed, and the writer itself stand beside it.
#![tactic(auto)]

mod pairs;
mod printed;
mod signals;
pub mod write_formula;
