// Four desks on one card: its sizes, the look at what is filed on a desk, and the stores of a load. The first edition
// is meant throughout: a desk has places for its records.
#![tactic(auto)]

pub mod form;
pub mod sizes;
pub mod stores;
