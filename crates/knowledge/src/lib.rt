// What is known of the fluents, and the actions that change it.
#![tactic(auto)]

pub mod actions;
pub mod kinds;
pub mod orders;
pub mod states;
#[cfg(test)]
mod tests;
pub mod worlds;
