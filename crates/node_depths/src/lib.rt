//! How deep the nodes of a flat module are.
//!
//! One pass over the nodes, that goes on where the tables grow. Knows nothing of names, texts and
//! kinds.
#![tactic(auto)]

mod depths;
mod forms;
mod nodes;

pub use depths::Depths;
