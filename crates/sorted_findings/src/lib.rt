//! What is found at the names of a module, sorted out: its uses, its replacements and its faults.
//!
//! Knows nothing of how it is found.
#![tactic(auto)]

mod bound;

pub use bound::{nothing, order, sort_out};
