// Runs of a loaded plan, for every kind of knowledge: the steps of a run, the walk along a list of readings, and following
// every branch that is open.
#![tactic(auto)]

pub mod conditions;
pub mod follow;
pub mod pending;
pub mod run;
mod waiting;
pub mod walk;
