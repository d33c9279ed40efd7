// The frames of a procedure file, and Select, which checks them all.
#![tactic(auto)]

pub mod frame;
pub mod selected;
#[cfg(test)]
mod tests;
