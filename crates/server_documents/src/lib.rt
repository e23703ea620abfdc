//! The texts of a root's modules and the open documents.
//!
//! Answers what calls leave of them, and which limit the texts pass. Knows nothing of what is found of
//! texts, and calls no folder: whoever holds it hands it the files that were read.
#![tactic(auto)]

mod documents;
mod held;
pub mod laws;
mod notices;
mod opened;

pub use documents::Documents;
pub use held::ModuleText;
