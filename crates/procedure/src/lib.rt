// Load: the procedure of a selected file, and its start.
#![tactic(auto)]

mod acts;
mod contents;
mod fields;
pub mod loaded;
pub mod starts;
#[cfg(test)]
mod tests;
