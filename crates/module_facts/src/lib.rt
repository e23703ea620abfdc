//! What is found of one module, as a function of its text and of what the modules are that it names:
//! the faults of its imports, or else those of its names and arities; its uses and declarations; and what
//! it is to others.
//!
//! No code: the definitions say what a check of a module answers, and the functions state laws on
//! them. Knows nothing of how any of it is found, and of families of modules.
#![tactic(auto)]

mod laws;

pub use laws::{faults_stand_in_text, in_order, none_in_order, one_order};
