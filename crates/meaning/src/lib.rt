// What a plan means: how a walk through it stops, what following it answers, and which rows say the least that must be
// known. The definitions are in specs/, and the laws about them in proofs/.
#![tactic(auto)]

pub mod answers;
pub mod nodes;
