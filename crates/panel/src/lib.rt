// The panel: a loaded plan is armed under a permit and confirmed step by step.
#![tactic(auto)]

pub mod answers;
pub mod armed;
pub mod known;
pub mod permitted;
pub mod reading;
#[cfg(test)]
mod tests;
pub mod visit;
