//! The first unit of a module that is too high.
//!
//! Answers its first lexeme, of a module that derives lexemes and is higher than it may be. Knows
//! nothing of how a module is read, of texts, and of what names mean.
#![tactic(auto)]

mod high;

pub use high::{MOST_HEIGHT, first_high};
