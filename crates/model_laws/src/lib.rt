//! Laws on what is said of a module in `module_model`.
//!
//! Each follows from the definitions there alone. Small modules with what their names mean stand in its
//! `proofs/`.
#![tactic(auto)]

mod laws;

pub use laws::{asks_needed, faults_at_lexemes, instances_are_known, replaced_by_declaration};
