//! What module names mean at a place of a text: a nested module, one round the place, or a file.
//!
//! Knows nothing of how a text is read, of what is known of a nested module, and of where files come from.
#![tactic(auto)]

mod modules;
mod nesting;

pub use modules::Modules;
pub use nesting::Nesting;
