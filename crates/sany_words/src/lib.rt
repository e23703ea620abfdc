//! What the words of the command line ask for.
//!
//! The words are read by `clap`, as those of one command. Knows nothing of folders and modules.
#![tactic(auto)]

mod command;
mod request;

pub use request::{Request, request_of};
