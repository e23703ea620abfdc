//! What the calls on modules say of them: what their names stand for, their faults in order, and what they
//! export; and the imports of a module under their names.
//!
//! Knows nothing of how it is found.
#![tactic(auto)]

mod bound;
mod face;
mod imported;
mod order;
mod parts;

pub use bound::{Bound, Implied};
pub use face::{Face, Replacement};
pub use imported::{Import, Imported};
pub use order::in_order;
pub use parts::{Part, Parts};
