// A digest of a shelf for one controller: numbers and sets of places where the shelf has names and ranges, so that a search need not ask it.
#![tactic(auto)]

mod bucket;
pub mod digest;
mod exporters;
mod index;
pub mod laws;
mod limits;
pub mod need;
mod needs;
mod number;
mod provider;
mod providers;
#[cfg(test)]
mod tests;
pub mod want;
