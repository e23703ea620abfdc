//! The faults of a module's imports, and what a module is to those that name it: its face.
//!
//! Knows nothing of scopes, and of where other modules come from.
#![tactic(auto)]

mod face;
mod imports;

pub use face::shared_face;
pub use imports::import_faults;
