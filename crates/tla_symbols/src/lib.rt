//! The symbols, reserved words and lexemes of TLA+, and the kinds of its expressions.
//!
//! Answers what a symbol may be at a place: its precedence range, its rule of levels, and whether a
//! module may define it. Knows nothing of spellings and texts, and takes no memory.
#![tactic(auto)]

mod level;
mod lexeme;
mod op;
mod place;

pub use level::{Kind, Rule};
pub use lexeme::{LexKind, Lexeme, Mark, Span, Word};
pub use op::Op;
pub use place::{Fix, Range, definable, range_of, rule_of};
