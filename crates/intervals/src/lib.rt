// Intervals and their prefix words: the five calls of document 01 that speak of a single field.
//
//   close       open bounds to a closed interval
//   count       how many prefix words an interval has
//   list        its prefix words, into a lent list
//   Walk::step  its prefix words, one by one
//   check       somebody else's ternary words against an interval
//
// Each takes any numbers, refuses what is bad itself, and is settled by the definition that its contract cites.
#![tactic(auto)]

mod bounds;
mod checks;
mod ends;
mod lists;
mod walks;

pub use bounds::{Closed, close};
pub use checks::{CheckError, check};
pub use ends::Fault;
pub use lists::{ListError, count, list};
pub use walks::{Step, Walk};
