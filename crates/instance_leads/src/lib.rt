//! Where instances lead, and what their modules are to those that name them.
//!
//! Answers what names mean behind instances of imported and of nested modules, by the faces of the one and by
//! what is kept of the other. Knows nothing of what is known at a place of a text.
#![tactic(auto)]

mod bring;
mod ended;
mod entries;
mod imports;
mod kinds;
mod leads;
mod named;
mod parameters;

pub use bring::{bring_ended, bring_ended_through, bring_face};
pub use ended::Ended;
pub use entries::{copied, kept_among, kept_in, meant_among, meant_in};
pub use imports::face_leads;
pub use kinds::{Kind, is_parameter};
pub use leads::Leads;
pub use named::{NamedModule, Numbers, exports_in, led_on, named_module};
pub use parameters::{face_parameters, nested_parameters};
