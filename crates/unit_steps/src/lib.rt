//! What a lexeme does where a module is read, as far as no expression is read: to units, and to the frames of their parts.
//!
//! Answers where the machine of `unit_machine` goes, and where an expression or bounds begin. Knows nothing of how
//! these are read.
//!
//! Where an answer's type is deep, a failed call is passed on by `let .. else`: what is proved of `?` repeats that type.
#![tactic(auto)]

mod due;
mod endings;
mod moves;
mod parts;
mod point;
mod step;
mod whole;

pub use parts::{give, take_bounds};
pub use point::{Next, Point};
