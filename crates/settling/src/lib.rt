// When does the gate settle, and with how much slack? A call has one file; the look at times that both need stands
// beside them.
#![tactic(auto)]

mod reading;
pub mod settle;
pub mod slack;
