// The chain of best splits that makes a sheet: the list of signals, the work area, the cells so far, and the steps.
#![tactic(auto)]

pub mod area;
pub mod chaining;
mod pile;
pub mod signals;
