// Kinds of values that stand in an order and are read from text, and ranges over any of them.
#![tactic(auto)]

pub mod controller;
pub mod examples;
pub mod kind;
pub mod laws;
pub mod number;
pub mod range;
#[cfg(test)]
mod tests;
pub mod version;
