//! The kinds of definitions on arguments, with nothing expanded.
//!
//! Judges each body node by node, and keeps what was found by the definition and the numbers of
//! what stands round it. Knows nothing of names, texts and faults.
#![tactic(auto)]

mod facts;
mod judging;
mod nodes;
mod steps;

pub use facts::{Argument, KindFacts};
