//! Where the names of modules lead, as tables: what modules are to their instances, by number, and where
//! meanings lead in the module that is read and in those round it.
//!
//! A name is looked up by hash, and a path is followed one instance after another. Knows nothing of units
//! and of how names are resolved.
#![tactic(auto)]

mod alike;
mod entries;
mod faces;
mod keys;
mod layer;
mod leads;
mod listed;
mod pairs;
mod paths;
mod same;
mod steps;
mod ways;

pub use entries::{brought_entries, nested_entries, table_entries};
pub use leads::ModuleLeads;
