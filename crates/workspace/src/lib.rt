//! The texts of a root's modules over a folder, with what is found of them: whom a session asks.
//!
//! Each notice and each reply is derived from the texts as they stand. Knows nothing of the order
//! of messages, and of frames.
#![tactic(auto)]

mod found;
mod notes;
mod replies;
mod workspace;

// Who stands on both asks for a check of files here, beside what a session asks.
pub use family_levels::{FamilyCheck, check_family};
pub use workspace::Workspace;
