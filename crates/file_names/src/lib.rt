//! The files of modules by their names.
//!
//! Answers which module a file stands for, and what the file of a module is called. Knows nothing of
//! what stands in a file, and reads no folder.
#![tactic(auto)]

mod names;

pub use names::{MOST_FILE_BYTES, file_of, module_of_file, modules_of};
