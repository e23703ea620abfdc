//! Walks through a text that know the places of offsets.
//!
//! Answers the place of each offset by that of an earlier one, so that places in the order of a text
//! cost one walk. Knows nothing of what stands at the places.
#![tactic(auto)]

mod cursor;

pub use cursor::{Columns, Cursor};
