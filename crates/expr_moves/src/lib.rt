//! The table of moves at marks in code: what a lexeme does to a frame that has no finished part before it.
//!
//! Answers exactly what `expr_grammar` says. Knows nothing of how frames are kept.
#![tactic(auto)]

mod moves;

pub use moves::{at_mark, defines, is_given, is_replaceable};
