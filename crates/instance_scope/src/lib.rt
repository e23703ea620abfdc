//! What modules are at a place of a text, and what stands behind their instances.
//!
//! Answers what is found in its trees, and what INSTANCE brings there. Knows nothing of units, and of where
//! imported modules come from.
#![tactic(auto)]

mod ending;
mod round;
mod scope;

pub use scope::Scope;
