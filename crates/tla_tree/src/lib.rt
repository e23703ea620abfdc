//! Syntax trees of modules.
//!
//! Answers what stands at each node of a tree: its form, its span, its height and its parts.
//! The parts of a node are there before it, so whoever walks over a tree needs no recursion.
//! Knows nothing of how a tree is found, and of what its names mean.
#![tactic(auto)]

mod form;
mod tree;
mod unit;

pub use form::{Form, helps};
pub use tree::Tree;
pub use unit::{ModuleTree, Unit};
