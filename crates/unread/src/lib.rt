// Which records of a sheet no later one reads.
#![tactic(auto)]

pub mod reading;
