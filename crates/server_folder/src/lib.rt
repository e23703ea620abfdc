//! Documents over the folder that their root names.
//!
//! Answers what is left where a root is taken, a document is closed, a file is read, or files are told to
//! have changed. Knows nothing of what is found of texts, and of messages.
#![tactic(auto)]

mod files;

pub use files::{close, judge, read_file, take_files, take_root};
