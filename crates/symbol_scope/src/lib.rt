//! What the names of a module stand for, and what the module is to those that name it.
//!
//! Answers both over the modules that it names. Knows nothing of where those come from, and of which of
//! them are refused.
#![tactic(auto)]

mod reading;
mod resolution;

pub use reading::{DeclaredText, declared_text, unread};
pub use resolution::{Resolved, resolve};
