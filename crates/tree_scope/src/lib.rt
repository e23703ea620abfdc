//! What is found of names in one tree, over the context of its place.
//!
//! Answers what each name in the tree means, which names are unknown or taken, what INSTANCE replaces,
//! and where paths lead. Knows nothing of units, and of how it is known what stands round the tree.
#![tactic(auto)]

mod found;
mod paths;
mod replacements;
mod surroundings;
mod visits;

pub use found::walk;
pub use surroundings::Surround;
