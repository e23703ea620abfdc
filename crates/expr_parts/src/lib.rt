//! The table of moves after parts in code, and the shapes of parts in an arena.
//!
//! Answers exactly what `expr_grammar` says. Knows nothing of how frames are kept.
#![tactic(auto)]

mod parts;
mod shapes;

pub use parts::at_part;
pub use shapes::shape;
