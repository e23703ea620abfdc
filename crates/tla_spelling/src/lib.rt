//! How the symbols, reserved words and marks of TLA+ are spelled.
//!
//! Answers what a spelling stands for. Knows nothing of texts, and takes no memory.
#![tactic(auto)]

mod spelling;

pub use spelling::{mark_of, op_of, word_of};
