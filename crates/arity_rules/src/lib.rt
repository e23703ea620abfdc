//! Whether operators and expressions are used as what they are.
//!
//! Answers the faults of arity in a module whose names are resolved. Knows nothing of how they are
//! resolved, and finds no fault with a name that means nothing.
#![tactic(auto)]

mod check;
mod entity;
mod faults;
mod meanings;
mod place;
mod walk;

pub use check::check_arity;
