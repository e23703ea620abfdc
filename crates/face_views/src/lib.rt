//! Whether what two checked modules are to those that name them is the same.
//!
//! Compares faces, and knows nothing of texts, and of how faces come about.
#![tactic(auto)]

mod face;
mod instances;
mod meaning;
mod table;

pub use face::{are_same, same_faces_look_alike};
pub use meaning::is_same_meaning;
