//! Reads modules: their units, with the expressions and definitions of all of them in one tree.
//!
//! Answers the one module that a list of lexemes spells, or the first lexeme up to which no module
//! begins so. Knows nothing of how lexemes are found, and of what names mean.
//!
//! Where an answer's type is deep, a failed call is passed on by `let .. else`: what is proved of `?` repeats that type.
#![tactic(auto)]

mod enter;
mod parse;
mod parts;
mod reader;
mod state;
mod step;

pub use parse::{ParseError, parse_module};
pub use unit_frames::ends_once;
