// A stack of records over cells that the caller lends.
#![tactic(auto)]

pub mod lent;
pub mod refusal;
#[cfg(test)]
mod tests;
