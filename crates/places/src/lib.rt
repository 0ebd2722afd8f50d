// Sets of the places of a shelf.
#![tactic(auto)]

pub mod set;
#[cfg(test)]
mod tests;
