// Directories that are read and directories that are refused, on both sides of every limit.
#![tactic(auto)]

#[cfg(test)]
mod built;
#[cfg(test)]
mod limits;
#[cfg(test)]
mod tables;
