//! What the names of a text mean, by where they begin, from what was found at them.
//!
//! Answers what each name and symbol means, and which symbols stand in for parameters that an
//! INSTANCE does not replace. Knows nothing of trees, and of how findings are found.
#![tactic(auto)]

mod names;

pub use names::{WrittenNames, written_names};
