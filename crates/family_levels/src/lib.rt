//! The check of a whole family of modules, levels and depths among it.
//!
//! Answers what is said of files of modules, over the built-in ones: whether they are accepted, and
//! the uses of their names, if facts are asked for. Keeps what is found of files that change. Each
//! module is checked behind all that it needs, and becomes nodes of one flat module where its names
//! and arities have no fault. Knows nothing of folders, and of how a report looks.
#![tactic(auto)]

mod changing;
mod family;
mod findings;
mod laws;
mod module;
mod modules;
mod names;
mod next;
mod numbers;
mod shown;
mod standing;
mod versions;

pub use changing::Family;
pub use family::{FamilyCheck, check_family};
pub use findings::Findings;
pub use names::{Names, SharedNames};
