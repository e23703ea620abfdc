//! Families of modules: files over the built-in modules, of each text its one front, and the modules
//! that it needs.
//!
//! No code but for the types of a file and of a verdict: the definitions say what a check of a family
//! stands on, and the functions state laws of them. Knows nothing of what is found of a module, and of
//! folders.
#![tactic(auto)]

mod laws;
mod verdict;

pub use laws::{names_differ, one_front_of};
pub use verdict::{File, Verdict};
