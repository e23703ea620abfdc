//! The front of a module: from its bytes to its tree.
//!
//! Answers the tree of a module, or the one fault that is found before its names are looked at.
//! Knows nothing of other modules, and of what names mean.
#![tactic(auto)]

mod fault;
mod module;
mod name;

pub use module::{FrontError, front};
