// Running a sheet at an assignment, and 64 assignments at a time; rebuilding its table.
#![tactic(auto)]

pub mod checking;
pub mod running;
pub mod words;
