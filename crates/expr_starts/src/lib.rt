//! The tables of starts, operators and endings in code: what a lexeme begins, what it does to a frame as an
//! operator or a bullet, and which frames end before it without a part.
//!
//! Answers exactly what `expr_grammar` and `precedence` say. Knows nothing of how frames are kept.
#![tactic(auto)]

mod endings;
mod operators;
mod starts;

pub use endings::endable;
pub use operators::{choice, lead, takes};
pub use starts::{begins, goes_on, is_bullet, role};
