//! Whole runs over objects in memory: tests alone.
//!
//! What is reported of modules and families, in what order, how a run ends as its devices do, and
//! that each call below `run` answers where there is memory.
#![tactic(auto)]

#[cfg(test)]
mod tests;
