//! Faces that hold exactly what their exports reach.
//!
//! Makes one of a face, and knows nothing of texts, and of how faces come about.
#![tactic(auto)]

mod already;
mod face;
mod found;
mod kept;
mod parts;
mod reached;

pub use face::{exact, exact_faces_are_told};
