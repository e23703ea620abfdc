//! What is shown of the uses of names in accepted modules: where each stands, where the name is
//! declared that it means, and its level.
//!
//! Finds where declaring names stand by one walk over each text. Knows nothing of how uses and
//! their levels are found, and of how a report looks.
#![tactic(auto)]

mod laws;
mod line;
mod places;

pub use laws::places_are_declared;
pub use line::{FactLine, ModuleReport};
pub use places::{declared_places, fact_lines};
