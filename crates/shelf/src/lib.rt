// Shelves: what a shelf means, the questions that it answers, and the layer that hides places.
#![tactic(auto)]

pub mod export;
pub mod hide;
mod lawful;
pub mod limits;
mod listed;
pub mod lookup;
pub mod need;
pub mod plain;
pub mod reference;
pub mod refusal;
pub mod samples;
pub mod shelf;
#[cfg(test)]
mod tests;
pub mod values;
