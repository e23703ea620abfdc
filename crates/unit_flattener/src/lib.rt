//! Nodes of a flat module that are made of the units of a module.
//!
//! Walks along the units of a module and makes nodes, definitions and instances of what they write,
//! with what is asked of it. Knows nothing of where imported modules come from, and of what the
//! answers to the questions are.
#![tactic(auto)]

mod bringing;
mod claims;
mod defining;
mod extending;
mod flattener;
mod known;
mod meanings;
mod modules;
mod nesting;
mod own;
mod scope;
mod units;

pub use flattener::UnitFlattener;
pub use modules::{Flattened, Tables, flatten_module};
pub use own::{has_no_nested, symbols_ahead};
pub use scope::{Before, ModuleNumbers};
