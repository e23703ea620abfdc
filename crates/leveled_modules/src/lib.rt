//! The levels of one module, by its tree, what its names mean and what the modules are that it names.
//!
//! Finds its symbols and whether it is constant, and so its faults of depth and of levels and the
//! levels of its uses. Knows nothing of scopes, and of the order in which modules are gone through.
#![tactic(auto)]

mod answers;
mod constancy;
mod levels;
mod start;

pub use answers::answers_are_levels;
pub use levels::level_module;
pub use module_levels::{LevelTables, ModuleLevels};
