// When the output of a sheet settles.
#![tactic(auto)]

pub mod input_time;
pub mod signals;
pub mod sixteenths;
