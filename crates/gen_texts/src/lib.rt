//! The modules that `gen` makes: each but the first is an instance of one before it.
//!
//! Answers them as files. Knows nothing of what is found of them.
#![tactic(auto)]

mod family;
mod texts;

pub use family::generated;
