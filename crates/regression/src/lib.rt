// The rows of a plan: the least that must be known beforehand, worked from the ends of the plan back to its root.
#![tactic(auto)]

mod arrays;
mod doing;
pub mod listing;
mod reading;
