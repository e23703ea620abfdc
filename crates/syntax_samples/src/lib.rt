//! What no clause says of the crates that read modules, over short texts: tests alone.
//!
//! The fronts of texts beside the sentences of the language show that each call below `front` answers
//! where there is memory.
#![tactic(auto)]

#[cfg(test)]
mod columns;
#[cfg(test)]
mod fronts;
#[cfg(test)]
mod operators;
