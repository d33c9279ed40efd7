// Sets of fluents, literals and numbered refusals: what every other crate is built on.
#![tactic(auto)]

pub mod faults;
pub mod literals;
pub mod sets;
#[cfg(test)]
mod tests;
