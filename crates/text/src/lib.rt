// Bytes and pieces of text: what every reader above is made of.
#![tactic(auto)]

pub mod bytes;
pub mod pieces;
