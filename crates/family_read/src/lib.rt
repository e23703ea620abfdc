//! The modules of a family with what they need: of files, over the built-in modules.
//!
//! Knows nothing of folders, of names that are no module's, and of how modules are checked.
#![tactic(auto)]

mod read;

pub use read::read_family;
