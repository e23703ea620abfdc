//! What modules bring to those that extend or instantiate them, as lists.
//!
//! Answers it where a reader of units stands. Knows nothing of what stands for names, and of where
//! imported modules come from.
#![tactic(auto)]

mod modules;

pub use modules::{
    end_nested, exports, extended_entries, extended_table, instance_entries, parameters,
};
