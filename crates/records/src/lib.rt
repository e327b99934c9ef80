// Records as they are found: the rules as a test, a sheet looked over by them, the desk that it says it is for.
#![tactic(auto)]

pub mod desk;
pub mod rules;
