//! Numbers of the nodes of a flat module, by their resolved trees.
//!
//! Nodes have one number where they have one tree, and there alone: so trees are compared by
//! comparing two numbers. Each node is numbered once, by what it is made of. Knows nothing of
//! names, texts and kinds.
#![tactic(auto)]

mod instances;
mod keys;
mod numbers;
mod same;

pub use numbers::{TreeNumbers, numbers_stay};
pub use same::{is_same_definition, is_same_instance};
