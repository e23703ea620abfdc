//! The machine that reads expressions, as a function on lists over tables of moves.
//!
//! Answers what the machine does and which nodes it makes; its laws stand in a crate above. Knows
//! nothing of how a machine is run: its state is a value of the definitions, and its tables stand in
//! code above.
#![tactic(auto)]

mod wait;

pub use wait::{
    Binding, Conversion, Handed, Lead, MarkMove, Mode, PartMove, Role, Shape, Start, Wait,
};
