//! Whether a module is constant: it declares no variable, and nothing that it writes, extends or
//! instantiates goes beyond constants.
//!
//! Goes along the units of the outermost module. Knows nothing of what names stand for, and of where
//! the answers for other modules come from.
#![tactic(auto)]

mod files;
mod module;
mod place;
mod trees;

pub use files::Files;
pub use module::is_constant;
