//! The levels and depths of a module, over those of modules before it.
//!
//! Makes nodes of the units of a module in one growing flat module, finds what these answer to what
//! is asked of them, and so the faults and the levels of uses. Knows nothing of where imported
//! modules come from.
#![tactic(auto)]

mod levels;
mod nested;
mod tables;

pub use levels::{ModuleLevels, find_levels};
pub use nested::nested_modules_close;
pub use tables::LevelTables;
pub use unit_flattener::{has_no_nested, symbols_ahead};
