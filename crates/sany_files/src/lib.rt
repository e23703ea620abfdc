//! The module files of a folder, within the limits.
//!
//! Knows nothing of what stands in a file, and of std's folders.
#![tactic(auto)]

mod files;
mod folder;

pub use folder::files_of_folder;
