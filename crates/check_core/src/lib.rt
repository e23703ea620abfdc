//! The check of one module.
//!
//! Answers the faults of a module past its front, its uses and declarations, and what it exports. Knows
//! nothing of scopes, of arities, and of where other modules come from.
#![tactic(auto)]

mod checked;

pub use checked::{Checked, check_module};
