//! All of some bytes to an output, in as many calls as it takes.
//!
//! Knows nothing of what the bytes say.
#![tactic(auto)]

mod output;

pub use output::write_all;
