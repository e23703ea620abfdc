//! Which instances a module's exports reach.
//!
//! Answers them in parts that faces share, over what is known at a place of a text.
#![tactic(auto)]

mod reached;

pub use reached::reached_from;
