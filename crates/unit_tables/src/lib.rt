//! The tables of the machine for units in code: what lexemes begin, and what they do in modules and
//! to frames.
//!
//! Answers exactly what the tables of `unit_machine` say. Knows nothing of how units and frames are
//! kept.
#![tactic(auto)]

mod frames;
mod moves;
mod units;

pub use frames::{after_bounds, after_expression, after_part};
pub use moves::frame_move;
pub use units::{due_move, unit_start};
