//! Faults of a text as a server says them: by their codes and their areas in UTF-16 units.
//!
//! Answers the notes on faults and the areas of spans. Knows nothing of how faults are found, and of
//! documents.
#![tactic(auto)]

mod notes;

pub use notes::{area_from, area_of, notes_on};
