//! What one name of a tree means or declares, over the context of its place.
//!
//! Answers which uses and which declaring names are at fault. Knows nothing of the order in which a tree is walked.
#![tactic(auto)]

mod parameter;
mod scopes;
mod text;
mod uses;

pub use parameter::{Name, Parameter};
pub use scopes::{bind, bind_all, refuse, reserve};
pub use text::ModuleText;
pub use uses::{bind_function, meaning_of, push_use, use_name, use_prefix, use_symbol};
