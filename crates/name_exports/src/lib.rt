//! The names that a module exports so far, beside those that can be used at its place.
//!
//! Puts the names that another module brings, and says whether one of them clashes. Knows nothing of texts
//! and trees, and of where other modules come from.
#![tactic(auto)]

mod exported;
mod extend;
mod instance;
mod names;
mod same;

pub use exported::Exported;
pub use extend::{bring_import, bring_nested};
pub use instance::{bring_nested_through, bring_through, passed};
pub use names::Names;
