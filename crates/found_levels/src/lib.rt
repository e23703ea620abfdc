//! What is found of levels and depths in a text, by what is asked of the nodes that were made of
//! it.
//!
//! From questions over frames to findings in their order, to faults, and to the levels of uses.
//! Knows nothing of trees, units and files.
#![tactic(auto)]

mod answers;
mod faults;
mod findings;
mod stretches;

pub use answers::{deep_answers, level_answers};
pub use faults::{depth_faults, level_faults, levels_of_uses};
pub use findings::LevelFinding;
