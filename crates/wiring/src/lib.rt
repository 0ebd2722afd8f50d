// Wirings of a shelf's bundles: what is offered for a need, what is chosen for it, and the laws of sources, touches and conflicts.
#![tactic(auto)]

pub mod candidates;
pub mod choice;
pub mod laws;
mod offers;
pub mod partial;
pub mod refusal;
pub mod table;
#[cfg(test)]
mod tests;
