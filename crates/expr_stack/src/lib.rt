//! The stack of frames of an expression that wait for their parts, with the parts that they have.
//!
//! Answers how frames open, take parts and end. Knows nothing of what lexemes do to them.
#![tactic(auto)]

mod stack;

pub use stack::{Frame, Opening, Stack};
