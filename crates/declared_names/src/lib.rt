//! The names that forms, the parts of a node, and a text declare or bind.
//!
//! Answers which they are and as what, in the order of the text. Knows nothing of what names mean.
#![tactic(auto)]

mod declared;
mod forms;
mod parts;

pub use declared::{declaring, push_unit};
pub use forms::{binding_in, follows_first};
pub use parts::{binders, defined, push_all_placed, push_placed};
