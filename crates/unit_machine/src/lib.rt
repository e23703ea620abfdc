//! The machine that reads modules and their units, as a function on lists over tables of moves.
//!
//! Answers what the machine does; its laws stand in a crate above. Knows nothing of how a machine is
//! run: its state is a value of the definitions, and its tables stand in code above.
#![tactic(auto)]

mod wait;

pub use wait::{Due, DueMove, Move, UnitStart, Wait};
