// A few bits of a table that rule out splits.
// Only `triple::bad`, `six::shows` and `crowd::shows_many` say what is ruled out; what looks for bits promises nothing,
// and needs no promise.
#![tactic(auto)]

pub mod crowd;
pub mod hint;
pub mod pick;
pub mod shrink;
pub mod six;
pub mod triple;
