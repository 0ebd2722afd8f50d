// The answer to one line of the program `holds`.
#![tactic(auto)]

pub mod answer;
pub mod laws;
pub mod line;
pub mod tally;
