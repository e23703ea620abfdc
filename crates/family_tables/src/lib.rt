//! What is kept of a family of modules while it is checked, under the names of its modules: what was
//! read of each, what was found of it, and in which order they are checked. And what these tell: what
//! each module is to one that needs it, and the verdicts on files.
//!
//! Knows nothing of how a module is read and checked.
#![tactic(auto)]

mod imports;
mod order;
mod outcome;
mod reach;
mod reading;
mod table;
mod verdict;

pub use imports::imports_of;
pub use order::{Plan, plan_of};
pub use outcome::Outcome;
pub use reach::reached_by;
pub use reading::{Module, Reading, SharedTree};
pub use table::Table;
pub use verdict::verdicts_of;
