//! Reads expressions, and the bounds in the heads of functions' definitions, lexeme by lexeme.
//!
//! Answers at each lexeme whether what stands before it is whole, with its node in a tree, whether the
//! lexeme goes on with it, or whether nothing that is derivable begins so. Knows nothing of how lexemes
//! are found, and of units.
#![tactic(auto)]

mod begins;
mod convert;
mod ending;
mod goal;
mod machine;
mod parts;
mod turn;

pub use goal::{Goal, Step};
pub use machine::ExprMachine;
