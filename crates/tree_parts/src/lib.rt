//! Parts of a tree that is read: nodes of the arena, each with the span of the lexemes that it was read from.
//!
//! Answers the span of stretches of lexemes, and adds nodes. Knows nothing of what is read.
#![tactic(auto)]

mod part;

pub use part::{Part, add, covered, joined, leaf};
