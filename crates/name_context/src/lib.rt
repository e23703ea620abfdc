//! The names that can be used at a place of a module.
//!
//! Answers what a name means there, and puts names behind those that are there. Knows nothing of texts and
//! trees, of what a module exports, and of where other modules come from.
#![tactic(auto)]

mod context;

pub use context::{Context, Mark, Named, symbol_in};
